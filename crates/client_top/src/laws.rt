//! Laws of what a command promises.

ghost use Rattle.std.specs.Prelude.{◌≡◌, ◌≢◌, ◌⊎◌, ℕ, Bool, true, false, List, [], Option, Some, None, Ok, IfSome, IsTrue};
ghost use Rattle.upd_text.specs.Counts.{Rose};
ghost use Rattle.device_model.specs.declared.calls.Event.{Event};
ghost use Rattle.device_model.specs.Disk.{IsTold, area_of};
ghost use Rattle.device_model.specs.State.{State};
ghost use Rattle.flow_table.specs.declared.position.Position.{Position};
ghost use Rattle.flow_table.specs.declared.position.State.TheVariants as state;
ghost use Rattle.flow_words.specs.Pieces.{End, Halted};
ghost use Rattle.flow_table.specs.Bound.{Nearer};
ghost use Rattle.admit.specs.declared.admitted.Admitted.{Admitted};
ghost use Rattle.device_model.specs.How.{has_start, work_after};
ghost use Rattle.flow_words.specs.Well.{GoesWell};
ghost use Rattle.record_codec.specs.declared.entry.Entry.{Entry};
ghost use Rattle.record_codec.specs.declared.entry.Db.{Db};
ghost use Rattle.record_codec.specs.Held.{position_of};
ghost use Rattle.record_codec.specs.Spelling.{IsRight, IfFull};
ghost use Rattle.slot_store.specs.Slots.{May, Stands};
ghost use Rattle.client_words.specs.declared.command.Command.{Command as Word};
ghost use Rattle.trace_check.specs.declared.note.NoteHead.{NoteHead};
ghost use Rattle.trace_check.specs.Follows.{Did as MayDo};
ghost use Rattle.client_top.specs.Finds.{Request, Found, Answers, Starts, finds};
ghost use Rattle.client_top.specs.Boot.{Boot, Fits};
ghost use Rattle.client_top.specs.Answers.{row_of, end_of, deploys};
ghost use Rattle.io_model.specs.Sink.{Written};
ghost use Rattle.client_top.specs.Did.{Did, Obeyed, Shelf, prepares};
ghost use Rattle.client_top.specs.Traced.{Traced};
ghost use Rattle.client_top.specs.Notes.{end_noted};
ghost use Rattle.client_top.specs.NoteHeads.{IsHead};
ghost use Rattle.client_top.specs.Promises.{IsUntied, Replies, Calm, Fulfils, IsOver, IsWell, Holds, TellsHeld, IsGiven, answer_for};
ghost use Rattle.client_top.specs.Examples.{Numbers, Ends, Texts, OverNothing, InProgresses, Ids};

use crate::status::Status;
use client_words::Command;

/// Where the database that was read gives an answer, it is given, unless a count rose or memory is wanting.
pub fn answers_are_exact()
    ensures { (asked : Request) (c : Db) (status due : Status) (old new : State) (source source_after : Shelf)
        → Did asked (Some c) status old new source source_after → finds asked c ≡ Answers due
        → (status ≡ due) ⊎ IsUntied (row_of status).basis }
{}

/// The end of a deployment decides the answer.
pub fn ends_decide_the_answer()
    ensures { (asked : Request) (from : Option Db) (status : Status) (end : End) (old new : State) (source source_after : Shelf)
        → Did asked from status old new source source_after → end_of status ≡ Some end → (end ≢ Halted)
        → answer_for asked.command end ≡ Some status }
{}

/// A command is cut off only where a count of the device rose.
pub fn halts_by_counts()
    ensures { (asked : Request) (from : Option Db) (status : Status) (old new : State) (source source_after : Shelf)
        → Did asked from status old new source source_after → end_of status ≡ Some Halted
        → Rose old.losses new.losses ⊎ Rose old.faults new.faults }
{}

/// Whatever may stand after a command was led to from what could stand before, and the answer is true of that.
pub fn boots_follow_one_another()
    ensures { (asked : Request) (from : Option Db) (status : Status) (old new : State) (source source_after : Shelf)
        → (did : Did asked from status old new source source_after) → IsTold old.disk → (d : Db) → May new.disk d
        → ((c : Db) × May old.disk c × Boot asked c did.events (end_of status) d × Replies (row_of status).basis asked c status) }
{}

/// Where an answer tells no deployment, nothing was started: want of memory comes before any child.
pub fn other_answers_start_nothing()
    ensures { (asked : Request) (from : Option Db) (status : Status) (old new : State) (source source_after : Shelf)
        → (did : Did asked from status old new source source_after) → end_of status ≡ None → did.events ≡ [] }
{}

/// A command that neither begins a deployment nor goes on with one starts no child and leaves the work folder, but for a loss
/// of power; and nothing may stand afterwards that couldn't before.
pub fn looking_changes_nothing()
    ensures { (asked : Request) (from : Option Db) (status : Status) (old new : State) (source source_after : Shelf)
        → (did : Did asked from status old new source source_after) → deploys asked.command ≡ false
        → ((did.events ≡ []) × (new.work ≡ work_after new.on old.work) × (IsTold old.disk → (d : Db) → May new.disk d → May old.disk d)) }
{}

/// Without a fault a command does what it finds to do, or answers want of memory.
pub fn commands_are_fulfilled()
    ensures { (asked : Request) (from : Option Db) (status : Status) (old new : State) (source source_after : Shelf) (c : Db)
        → Did asked from status old new source source_after → Calm old new source source_after → IsTold old.disk
        → IfSome (area_of old.disk) (λ area. Stands area c)
        → (status ≡ Status.NoMemory) ⊎ Fulfils (finds asked c) status }
{}

/// An install in which each child exits 0, each reply can be read and all modules say the same of a rollback ends committed,
/// waits, or needs a reboot.
pub fn installs_go_well()
    ensures { (asked : Request) (c : Db) (status : Status) (old new : State) (source source_after : Shelf) (e : Entry) (p : Position) (can : Bool)
        → (did : Did asked (Some c) status old new source source_after) → Calm old new source source_after → IsTold old.disk
        → asked.command ≡ Ok Command.Install → finds asked c ≡ Starts e p → GoesWell can did.events
        → (status ≡ Status.NoMemory) ⊎ IsWell status }
{}

/// What is held after a boot: the old, unless a deployment committed or became inconsistent; after a commit the new; or the new,
/// marked, for one of the three causes.
pub fn the_old_or_the_new_is_held()
    ensures { (asked : Request) (c d : Db) (events : List Event) (end : Option End)
        → IfFull IsRight c → Boot asked c events end d → Holds asked c events d }
{}

/// What an answer says is held: `committed` exactly what the deployment provides; `inconsistent` that, marked; `rolled back`,
/// `not installed`, `waiting` and `reboot needed` exactly what was held before it.
pub fn answers_tell_what_is_held()
    ensures { (asked : Request) (c d : Db) (events : List Event) (status : Status)
        → IfFull IsRight c → IsTrue ((row_of status).whose asked.command) → Boot asked c events (end_of status) d
        → IsOver (end_of status) → TellsHeld c status d }
{}

/// A resume without a fault enters more states than were entered before, or ends the deployment, or answers want of memory.
pub fn resumes_come_to_an_end()
    ensures { (asked : Request) (c d : Db) (status : Status) (old new : State) (source source_after : Shelf)
        → Did asked (Some c) status old new source source_after → Calm old new source source_after → IsTold old.disk
        → asked.command ≡ Ok Command.Resume → ((position_of c).state ≢ state.Idle) → May new.disk d
        → (status ≡ Status.NoMemory) ⊎ Nearer (position_of c) (position_of d) }
{}

/// Where a deployment is in progress, nothing but its children changes the work folder, whatever is asked.
pub fn folders_are_kept()
    ensures { (asked : Request) (c : Db) (status : Status) (old new : State) (source source_after : Shelf)
        → (did : Did asked (Some c) status old new source source_after) → ((position_of c).state ≢ state.Idle)
        → did.device.ready ≡ old.work }
{}

/// What the first child of a deployment that begins was given is the folder of its plan, over what was held before.
pub fn first_children_are_given_the_folder()
    ensures { (asked : Request) (c : Db) (status : Status) (old new : State) (source source_after : Shelf)
        → (did : Did asked (Some c) status old new source source_after)
        → prepares asked (Some c) ≡ true → has_start did.events ≡ true
        → ((plan : Admitted) × Fits asked c plan × IfSome new.work (IsGiven asked c plan)) }
{}

/// A note with the head of a boot and its end tells of a boot that the flow has: from where the database stood it leads, with the
/// boot's events, to where the database stands.
pub fn notes_tell_of_boots()
    ensures { (asked : Request) (word : Word) (c d : Db) (events : List Event) (end : Option End) (head : NoteHead)
        → asked.command ≡ Ok word → Boot asked c events end d → IsHead asked.site word c end d head
        → MayDo head events (end_noted end) (position_of d) }
{}

/// Without a note a command does what it does, and no more.
pub fn nothing_else_is_traced()
    ensures { (asked : Request) (old new : State) (source source_after : Shelf) (before behind : Written) (status : Status)
        → Traced None asked old new source source_after before behind status
        → Obeyed asked old new source source_after before behind status }
{}

/// Worked answers.
pub fn worked_answers()
    ensures numbers { Numbers }
    ensures ends { Ends }
    ensures texts { Texts }
{}

/// Worked commands.
pub fn worked_finds()
    ensures over_nothing { OverNothing }
    ensures in_progress { InProgresses }
    ensures ids { Ids }
{}
