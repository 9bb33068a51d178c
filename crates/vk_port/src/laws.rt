//! Laws of the Vulkan machine. The functions do nothing.

ghost use Rattle.vk_port.specs.Laws.{EachMeans, EachIsOffered, EachFalls, SubmissionsAdd, StaysValid, StaysMatched, StaysShown, OffersWhatIsEnabled};

/// A step that can be taken means what it says: a pass is of a queue's next batch, whose waits are
/// reached; a command is of a batch that has passed, and not done, and each earlier command of its queue that
/// has to be done before it is done; a batch that ends is the first of its queue, has passed, and all its
/// commands are done.
pub fn each_step_means_what_it_says()
    ensures { EachMeans }
{}

/// Each pass, command and end that may be done by that meaning is among the steps that can be taken.
pub fn what_may_be_done_is_offered()
    ensures { EachIsOffered }
{}

/// Each step that is taken leaves one step fewer.
pub fn each_step_leaves_fewer()
    ensures { EachFalls }
{}

/// A batch that is submitted adds a pass, an end, and a step for each of its commands.
pub fn a_submission_adds_its_steps()
    ensures { SubmissionsAdd }
{}

/// The first state is valid, and each thing that is done keeps a state valid.
pub fn states_stay_valid()
    ensures { StaysValid }
{}

/// The first state has the objects of its plan, and each thing that is done keeps them.
pub fn states_keep_their_objects()
    ensures { StaysMatched }
{}

/// The view of the machine's first state is the first one, and each thing that is done moves the view as it moves the
/// machine: its timelines, its journal, and each queue's unfinished batches.
pub fn states_show_the_machine()
    ensures { StaysShown }
{}

/// The steps that are offered are those that the machine can take: each pass, command and end that is offered can be
/// taken, and each that can be taken is offered.
pub fn what_is_offered_is_enabled()
    ensures { OffersWhatIsEnabled }
{}
