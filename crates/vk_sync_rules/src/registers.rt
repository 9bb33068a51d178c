//! What the registers of commands stand for.

ghost use Rattle.std.specs.Prelude.{◌≡◌};
ghost use Rattle.vk_sync_rules.specs.Machines.{answers_behind, slots_in_all, told as is_told};
ghost use Rattle.vk_sync_rules.specs.Registers.{answer_of, same_class, words_of_view as view_words, words_of_place as place_words, words_of_answer as answer_words, words_from as from_words, words_of_register as register_words};

use crate::ranges::{VkResource, WordRange};
use crate::sizes::words_in;
use crate::slots::{Slot, Slots};
use dx_base::Class;
use vk_types::{DevicePlan, PlanView, Register};

/// What the loads of slots answered for one, where it is the first of them; None where it is another.
fn told(first: Option<Slot>, answers: &[u32], slot: Slot) -> Option<u32>
    ensures { result ≡ is_told first answers.now slot }
{
    let first = first?;
    match answers.split_first() {
        None => Some(0),
        Some((answer, _)) => {
            if first.0 == slot.0 && first.1 == slot.1 {
                Some(*answer)
            } else {
                None
            }
        }
    }
}

/// The answers behind that of a slot.
fn behind(first: Option<Slot>, answers: &[u32]) -> &[u32]
    ensures { result.now ≡ answers_behind first answers.now }
{
    match first {
        None => answers,
        Some(_) => match answers.split_first() {
            None => answers,
            Some((_, rest)) => rest,
        },
    }
}

/// What the loads of slots answered for a slot: the view's place in the plan plus one, or 0 where none is set.
#[tactic(auto, using(crate::proofs::PieceSteps::answer_first))]
fn answer_for(slots: Slots, answers: &[u32], slot: Slot) -> u32
    ensures { result ≡ answer_of (slots_in_all slots) answers.now slot }
{
    if let Some(answer) = told(slots.first, answers, slot) {
        return answer;
    }
    let answers = behind(slots.first, answers);
    if let Some(answer) = told(slots.second, answers, slot) {
        return answer;
    }
    let answers = behind(slots.second, answers);
    if let Some(answer) = told(slots.third, answers, slot) {
        return answer;
    }
    let answers = behind(slots.third, answers);
    if let Some(answer) = told(slots.fourth, answers, slot) {
        return answer;
    }
    0
}

/// Whether two classes are the same.
fn is_same_class(one: Class, other: Class) -> bool
    ensures { result ≡ same_class one other }
{
    match (one, other) {
        (Class::Cbv, Class::Cbv) => true,
        (Class::Cbv, Class::Srv) => false,
        (Class::Cbv, Class::Uav) => false,
        (Class::Srv, Class::Cbv) => false,
        (Class::Srv, Class::Srv) => true,
        (Class::Srv, Class::Uav) => false,
        (Class::Uav, Class::Cbv) => false,
        (Class::Uav, Class::Srv) => false,
        (Class::Uav, Class::Uav) => true,
    }
}

/// The words of a view of the plan; None where it has another class.
fn words_of_view(plan: &DevicePlan, class: Class, view: PlanView) -> Option<WordRange>
    ensures { result ≡ view_words plan.now class view }
{
    match view {
        PlanView::Buffer {
            class: is,
            buffer,
            first,
            words,
        } => {
            if is_same_class(class, is) {
                Some(WordRange {
                    resource: VkResource::Buffer(buffer),
                    first: first as u64,
                    count: words as u64,
                })
            } else {
                None
            }
        }
        PlanView::Image {
            class: is,
            image,
            sub,
        } => {
            if is_same_class(class, is) {
                Some(WordRange {
                    resource: VkResource::Image(image, sub),
                    first: 0,
                    count: words_in(plan, VkResource::Image(image, sub)),
                })
            } else {
                None
            }
        }
    }
}

/// The words of the view at a place of the plan.
fn words_of_place(plan: &DevicePlan, class: Class, place: u32) -> Option<WordRange>
    ensures { result ≡ place_words plan.now class place }
{
    match plan.views.get(place as usize) {
        None => None,
        Some(view) => words_of_view(plan, class, *view),
    }
}

/// The words of the view that an answer names.
fn words_of_answer(plan: &DevicePlan, class: Class, answer: u32) -> Option<WordRange>
    ensures { result ≡ answer_words plan.now class answer }
{
    if answer == 0 {
        None
    } else {
        words_of_place(plan, class, answer - 1)
    }
}

/// A buffer from a word on; no words where that lies past its end.
fn words_from(plan: &DevicePlan, buffer: u32, first: u32) -> WordRange
    ensures { result ≡ from_words plan.now buffer first }
{
    let resource = VkResource::Buffer(buffer);
    let words = words_in(plan, resource);
    if (first as u64) < words {
        WordRange {
            resource,
            first: first as u64,
            count: words - first as u64,
        }
    } else {
        WordRange {
            resource,
            first: 0,
            count: 0,
        }
    }
}

/// The words that a register views, as one of a class, where its command loads these slots with these answers.
pub(crate) fn words_of_register(
    plan: &DevicePlan,
    slots: Slots,
    answers: &[u32],
    class: Class,
    register: Register,
) -> Option<WordRange>
    ensures { result ≡ register_words plan.now (answer_of (slots_in_all slots) answers.now) class register }
{
    match register {
        Register::Unbound => None,
        Register::Constant(_) => None,
        Register::Root { buffer, first } => Some(words_from(plan, buffer, first)),
        Register::Fixed(place) => words_of_place(plan, class, place),
        Register::Slot { heap, slot } => {
            words_of_answer(plan, class, answer_for(slots, answers, (heap, slot)))
        }
    }
}
