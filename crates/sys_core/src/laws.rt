//! Laws of the system. The function does nothing.

ghost use Rattle.sys_core.specs.Laws.{StepsGoOn};

/// Where the Direct3D machine after a history has a thread or a queue that can go on, and the device stands, the
/// system has a step.
pub fn a_step_is_enabled_where_the_machine_has_one()
    ensures { StepsGoOn }
{}
