//! Worked rows: small runs that break a rule, and such as just keep it. The functions do nothing.

ghost use Rattle.std.specs.Prelude.{◌≡◌, [], ◌∷◌, Some, None};
ghost use Rattle.dx_flags.specs.declared.layouts.Layout.TheVariants as layout;
ghost use Rattle.dx_flags.specs.AccessNames as access;
ghost use Rattle.dx_flags.specs.SyncNames as sync;
ghost use Rattle.verdicts.specs.declared.rules.Rule.TheVariants.{B1, B2, B3, B4, B5, B10, B12};
ghost use Rattle.verdicts.specs.declared.rules.Verdict.TheVariants.{Clean, Broken};
ghost use Rattle.d3d_judge.specs.Judged.{judge};
ghost use Rattle.d3d_judge.specs.Rows.{all_from, into_y, out_of_y, y_written_to_read, all_read, all_written_to, b, copies_halves, copies_twice, d, d_to_b, d_written_to, e_written_to, from_readback, into_upload, into_x, judge_scope, judge_two, judge_two_in_order, marked_later, marked_wait, nothing_of_d, one_queue_twice, out_of_x, read_behind_a_value, read_behind_a_wait, read_behind_an_older_value, read_too_early, read_unknown, reads_stay, refused_read, small_world, two_queues, two_queues_in_order, two_readers, u_to_d, view_of_x, whole_way, within_d, write_too_early, x_from_none, x_to_any, x_written_to_read};

/// Host accesses beside copies of the same words: B10.
pub fn host_accesses_know_what_was_before()
    ensures before_the_copy { judge small_world read_too_early ≡ Broken B10 6 }
    ensures unknown { judge small_world read_unknown ≡ Broken B10 6 }
    ensures behind_a_wait { judge small_world read_behind_a_wait ≡ Clean }
    ensures behind_a_value { judge small_world read_behind_a_value ≡ Clean }
    ensures behind_an_older_value { judge small_world read_behind_an_older_value ≡ Broken B10 9 }
    ensures write { judge small_world write_too_early ≡ Broken B10 6 }
    ensures refused { judge small_world refused_read ≡ Broken B10 7 }
{}

/// A wait knows the update that marked it, and no later one.
pub fn waits_know_the_update_that_marked_them()
    ensures first { judge small_world (marked_wait d) ≡ Clean }
    ensures no_later { judge small_world (marked_wait b) ≡ Broken B10 17 }
    ensures later { judge small_world marked_later ≡ Clean }
{}

/// Two queues that access the same words: B1.
pub fn scopes_know_earlier_scopes()
    ensures two_queues_write { judge small_world two_queues ≡ Broken B1 10 }
    ensures in_order { judge small_world two_queues_in_order ≡ Clean }
    ensures two_read { judge small_world two_readers ≡ Clean }
    ensures one_queue { judge small_world one_queue_twice ≡ Clean }
    ensures reads_stay { judge small_world reads_stay ≡ Broken B1 15 }
    ensures a_change { judge_two (x_written_to_read layout.Common layout.CopySource ∷ []) (x_from_none layout.CopySource layout.CopySource ∷ []) ≡ Broken B1 4 }
    ensures names_alone { judge_two (x_from_none layout.Common layout.Common ∷ []) (x_from_none layout.Common layout.Common ∷ []) ≡ Clean }
    ensures a_wait { judge_two_in_order (u_to_d ∷ []) (u_to_d ∷ []) ≡ Clean }
{}

/// A scope accesses a word twice, with a barrier between or without: B2.
pub fn barriers_cover_accesses()
    ensures twice { judge small_world copies_twice ≡ Broken B2 6 }
    ensures halves { judge small_world copies_halves ≡ Clean }
    ensures covered { judge_scope (u_to_d ∷ d_written_to access.COPY_SOURCE ∷ d_to_b ∷ []) ≡ Clean }
    ensures another_kind { judge_scope (u_to_d ∷ d_written_to access.COPY_DEST ∷ d_to_b ∷ []) ≡ Broken B2 7 }
    ensures another_buffer { judge_scope (u_to_d ∷ e_written_to access.COPY_SOURCE ∷ d_to_b ∷ []) ≡ Broken B2 7 }
    ensures too_early { judge_scope (d_written_to access.COPY_SOURCE ∷ u_to_d ∷ d_to_b ∷ []) ≡ Broken B2 7 }
    ensures one_command { judge_scope (within_d ∷ []) ≡ Broken B2 5 }
    ensures no_words { judge_scope (u_to_d ∷ nothing_of_d ∷ []) ≡ Clean }
{}

/// Subresources of a texture are apart: a barrier of one covers and loses no words of another, one of all does: B2, B12.
pub fn barriers_name_subresources()
    ensures that_one { judge_scope (into_y 0 ∷ y_written_to_read (Some 0) layout.Common ∷ out_of_y 0 ∷ []) ≡ Clean }
    ensures another { judge_scope (into_y 0 ∷ y_written_to_read (Some 1) layout.Common ∷ out_of_y 0 ∷ []) ≡ Broken B2 7 }
    ensures all { judge_scope (into_y 1 ∷ y_written_to_read None layout.Common ∷ out_of_y 1 ∷ []) ≡ Clean }
    ensures apart { judge_scope (into_y 0 ∷ out_of_y 1 ∷ []) ≡ Broken B12 6 }
    ensures lost { judge_scope (into_y 1 ∷ y_written_to_read None layout.Undefined ∷ out_of_y 1 ∷ []) ≡ Broken B12 7 }
{}

/// Barriers one behind the other cover what the first has before it, where the second has its part: B2.
pub fn barriers_chain()
    ensures all { judge_scope (u_to_d ∷ all_written_to sync.COPY ∷ d_to_b ∷ []) ≡ Clean }
    ensures chained { judge_scope (u_to_d ∷ all_written_to sync.COMPUTE_SHADING ∷ all_from sync.COMPUTE_SHADING ∷ d_to_b ∷ []) ≡ Clean }
    ensures first_alone { judge_scope (u_to_d ∷ all_written_to sync.COMPUTE_SHADING ∷ d_to_b ∷ []) ≡ Broken B2 7 }
    ensures no_chain { judge_scope (u_to_d ∷ all_written_to sync.COMPUTE_SHADING ∷ all_read ∷ d_to_b ∷ []) ≡ Broken B2 8 }
{}

/// An access that the home of a buffer or the layout of a texture does not allow: B3.
pub fn accesses_fit_homes_and_layouts()
    ensures upload { judge small_world into_upload ≡ Broken B3 5 }
    ensures readback { judge small_world from_readback ≡ Broken B3 5 }
    ensures wrong_layout { judge_scope (x_to_any layout.CopySource ∷ into_x ∷ []) ≡ Broken B3 6 }
    ensures right_layout { judge_scope (x_to_any layout.CopyDest ∷ into_x ∷ []) ≡ Clean }
    ensures view_in_common { judge_scope (view_of_x ∷ []) ≡ Broken B3 5 }
    ensures not_covered { judge_scope (into_x ∷ x_written_to_read layout.Common layout.CopySource ∷ into_x ∷ []) ≡ Broken B2 7 }
{}

/// A layout before a barrier that is not the current one: B4.
pub fn layouts_before_are_current()
    ensures wrong { judge_scope (x_from_none layout.CopyDest layout.CopySource ∷ []) ≡ Broken B4 5 }
    ensures current { judge_scope (x_from_none layout.Common layout.CopySource ∷ []) ≡ Clean }
    ensures undefined { judge_scope (x_from_none layout.Undefined layout.CopyDest ∷ []) ≡ Clean }
    ensures changed { judge_scope (x_from_none layout.Common layout.CopySource ∷ x_from_none layout.Common layout.Common ∷ []) ≡ Broken B4 6 }
{}

/// A barrier with nothing before it, of what the scope used already: B5.
pub fn nothing_comes_before_none()
    ensures used { judge_scope (into_x ∷ x_from_none layout.Common layout.Common ∷ []) ≡ Broken B5 6 }
    ensures not_yet { judge_scope (x_from_none layout.Common layout.Common ∷ into_x ∷ []) ≡ Clean }
    ensures named_alone { judge_scope (x_from_none layout.Common layout.Common ∷ x_from_none layout.Common layout.Common ∷ []) ≡ Clean }
    ensures another { judge_scope (u_to_d ∷ x_from_none layout.Common layout.Common ∷ []) ≡ Clean }
    ensures all { judge_scope (u_to_d ∷ all_from sync.NONE ∷ []) ≡ Broken B5 6 }
    ensures no_words { judge_scope (nothing_of_d ∷ all_from sync.NONE ∷ []) ≡ Clean }
{}

/// A read of lost words: B12.
pub fn lost_words_are_not_read()
    ensures at_first { judge_scope (out_of_x ∷ []) ≡ Broken B12 5 }
    ensures still { judge_scope (x_from_none layout.Undefined layout.CopySource ∷ out_of_x ∷ []) ≡ Broken B12 6 }
    ensures again { judge_scope (into_x ∷ x_written_to_read layout.Undefined layout.CopySource ∷ out_of_x ∷ []) ≡ Broken B12 7 }
    ensures written { judge_scope (into_x ∷ x_written_to_read layout.Common layout.CopySource ∷ out_of_x ∷ []) ≡ Clean }
    ensures whole_way { whole_way ≡ Clean }
{}
