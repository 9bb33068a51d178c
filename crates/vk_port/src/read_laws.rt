//! Laws of what copies and the host read. The functions do nothing.

ghost use Rattle.vk_port.specs.ReadRows.{ReadRows};
ghost use Rattle.vk_port.specs.Reads.{AnswersAreOne, AnswersAreWords, AnswersHaveNumbers, BarriersNamed, BuffersAreWords, CopiesAreKnown, HostReadsAreKnown, HostReadsSeeNumbers, HostWritesAreKnown, InsidePassesNoEnd, ReadsSee, SeenAnswersAreFixed, StaysBegun, StepsKeepNumbers};
ghost use Rattle.vk_port.specs.Settled.{FirstIsSettled, SettledCopiesAreKnown, SettledCopiesAreLed, SettledHostReadsAreKnown, SettledWritesAreShown, StaysSettled};

/// The worked rows of what copies and the host read.
#[tactic(auto, using(crate::proofs::ReadRows::read_rows))]
pub fn read_rows_compute()
    ensures { ReadRows }
{}

/// In a run, what is known of barriers, of batches that passed and ended, and of who made each access stays known.
#[tactic(auto, using(crate::proofs::ReadNumbers::stays_begun))]
pub fn states_stay_begun()
    ensures { StaysBegun }
{}

/// A command in a batch that a full barrier leads reads the numbers that stand there, where each access that was made
/// enters the batch (Vulkan 1.3, 7.1: memory dependencies).
#[tactic(auto, using(crate::proofs::ReadNumbers::reads_see))]
pub fn led_commands_read_what_stands()
    ensures { ReadsSee }
{}

/// Where each word of the buffers is known, it is after such a copy inside its buffers: the words are those with the copy
/// done at once (Vulkan 1.3, 19.2). Only commands other than these barriers and host writes move numbers.
#[tactic(auto, using(crate::proofs::ReadNumbers::copies_known, crate::proofs::ReadNumbers::inside_passes_no_end, crate::proofs::ReadNumbers::steps_keep))]
pub fn known_words_stay_known()
    ensures copies { CopiesAreKnown }
    ensures inside { InsidePassesNoEnd }
    ensures others { StepsKeepNumbers }
{}

/// Where the host sees each write, it reads the numbers that stand there, and words that it writes are known.
#[tactic(auto, using(crate::proofs::ReadNumbers::host_reads_see, crate::proofs::ReadNumbers::host_reads_known, crate::proofs::ReadNumbers::host_writes_known))]
pub fn host_reads_what_stands()
    ensures reads { HostReadsSeeNumbers }
    ensures known { HostReadsAreKnown }
    ensures writes { HostWritesAreKnown }
{}

/// The answer to a read of the host is fixed in each word whose number is known and whose last write the host sees; an
/// answer all of whose words are is the only one.
#[tactic(auto, using(crate::proofs::ReadAnswers::answers_have_numbers, crate::proofs::ReadAnswers::answers_are_one, crate::proofs::ReadAnswers::answers_are_words, crate::proofs::ReadAnswers::buffers_are_words, crate::proofs::ReadAnswers::seen_answers_are_fixed))]
pub fn seen_answers_are_fixed()
    ensures word { AnswersHaveNumbers }
    ensures all { AnswersAreOne }
    ensures words { AnswersAreWords }
    ensures buffers { BuffersAreWords }
    ensures seen { SeenAnswersAreFixed }
{}

/// The full barrier and the one to the host name ALL_COMMANDS with MEMORY_WRITE, then ALL_COMMANDS with MEMORY_READ and
/// MEMORY_WRITE, or HOST with HOST_READ.
pub fn barriers_are_named()
    ensures { BarriersNamed }
{}

/// A queue whose batches have at most one copy, between a full barrier and one to the host, is settled from the first
/// state on, where its commands make all accesses but the host's, and the host's come where no batch with commands is
/// unfinished.
#[tactic(auto, using(crate::proofs::SettledSteps::first_settled, crate::proofs::SettledSteps::stays_settled))]
pub fn queues_stay_settled()
    ensures first { FirstIsSettled }
    ensures steps { StaysSettled }
{}

/// A copy of a settled queue that can run follows all that was made, so it reads known words, and leaves known words.
#[tactic(auto, using(crate::proofs::Settled::copies_led, crate::proofs::Settled::settled_copies_known))]
pub fn settled_copies_are_known()
    ensures led { SettledCopiesAreLed }
    ensures known { SettledCopiesAreKnown }
{}

/// Where the batches of a settled queue that have commands have ended, the host sees each write, so it reads known words.
pub fn settled_host_reads_are_known()
    ensures shown { SettledWritesAreShown }
    ensures known { SettledHostReadsAreKnown }
{}
