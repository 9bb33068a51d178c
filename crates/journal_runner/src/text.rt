//! The lines that tell an answer with a number.

ghost use Rattle.std.specs.Prelude.{◌≡◌, Ok, Err, IfOk};
ghost use Rattle.line_forms.specs.Lines.{line_text, rest_of_line};
ghost use Rattle.journal_runner.specs.Answers.{rule_word as word_of_rule, text_of};
ghost use Rattle.journal_runner.specs.declared.fault.ToolFault.TheVariants.{Refused};
ghost use Rattle.vk_journal_check.specs.declared.checking.StepCheck.TheVariants.{Broken, Impossible};

use dx_base::Memory;
use line_forms::{Cause, end_line, put, put_next, put_number};
use std::alloc::Global;
use vk_sync_rules::VkRule;

/// The rule's name.
fn rule_word(rule: VkRule) -> &'static str
    ensures { result.now ≡ word_of_rule rule }
{
    match rule {
        VkRule::V1 => "V1",
        VkRule::V2 => "V2",
        VkRule::V3 => "V3",
        VkRule::V4 => "V4",
        VkRule::V5 => "V5",
        VkRule::V6 => "V6",
        VkRule::V7 => "V7",
        VkRule::V8 => "V8",
        VkRule::V9 => "V9",
        VkRule::V10 => "V10",
    }
}

/// The line `broken RULE STEP`.
#[tactic(auto, unfolding(line_forms::specs::Lines::line_text, line_forms::specs::Lines::rest_of_line))]
pub fn broken_line(alloc: Global, rule: VkRule, step: u64) -> Result<Vec<u8>, Memory>
    ensures { IfOk result (λ line. line.items ≡ text_of (Ok (Broken rule step))) }
{
    let mut line = Vec::new(alloc);
    put(&mut line, b"broken")?;
    put_next(&mut line, rule_word(rule).as_bytes())?;
    put_number(&mut line, step)?;
    end_line(&mut line)?;
    Ok(line)
}

/// The line `impossible STEP`.
#[tactic(auto, unfolding(line_forms::specs::Lines::line_text, line_forms::specs::Lines::rest_of_line))]
pub fn impossible_line(alloc: Global, step: u64) -> Result<Vec<u8>, Memory>
    ensures { IfOk result (λ line. line.items ≡ text_of (Ok (Impossible step))) }
{
    let mut line = Vec::new(alloc);
    put(&mut line, b"impossible")?;
    put_number(&mut line, step)?;
    end_line(&mut line)?;
    Ok(line)
}

/// The line `refused line N CAUSE`.
#[tactic(auto, unfolding(line_forms::specs::Lines::line_text, line_forms::specs::Lines::rest_of_line))]
pub fn refused_line(alloc: Global, number: u64, cause: Cause) -> Result<Vec<u8>, Memory>
    ensures { IfOk result (λ line. line.items ≡ text_of (Err (Refused number cause))) }
{
    let mut line = Vec::new(alloc);
    put(&mut line, b"refused line")?;
    put_number(&mut line, number)?;
    put_next(&mut line, cause.word().as_bytes())?;
    end_line(&mut line)?;
    Ok(line)
}
