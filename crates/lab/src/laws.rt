//! Laws of boots and of scripts.

ghost use Rattle.std.specs.Prelude.{◌≡◌, ◌≢◌, ℕ, ◌+◌, ◌-◌, ◌^◌, ◌<◌, ◌≤◌, List, [], ◌∷◌, ◌++◌, All, length, map, replicate, Some};
ghost use Rattle.device_model.specs.declared.calls.Event.{Event};
ghost use Rattle.io_model.specs.Source.{Content, Tree};
ghost use Rattle.io_model.specs.Source.Content.{Told};
ghost use Rattle.io_model.specs.MemSource.{Shelf};
ghost use Rattle.device_model.specs.Disk.{Disk, unmarked};
ghost use Rattle.slot_store.specs.Slots.{May};
ghost use Rattle.device_mem.specs.MemState.{MemState};
ghost use Rattle.trace_check.specs.declared.note.Note.{Note};
ghost use Rattle.trace_check.specs.Follows.{Chain};
ghost use Rattle.client_words.specs.declared.command.Command.{Command};
ghost use Rattle.client_words.specs.declared.command.Command.TheVariants.{Install, Resume};
ghost use Rattle.script_names.specs.declared.site.Site.{Site};
ghost use Rattle.flow_table.specs.declared.position.State.TheVariants.{Idle};
ghost use Rattle.flow_table.specs.Bound.{Nearer};
ghost use Rattle.record_codec.specs.declared.entry.Db.{Db};
ghost use Rattle.record_codec.specs.declared.entry.Db.TheVariants.{Empty};
ghost use Rattle.record_codec.specs.Held.{held, position_of};
ghost use Rattle.device_mem.specs.declared.script.Script.{Script};
ghost use Rattle.device_mem.specs.Fits.{Fits};
ghost use Rattle.device_mem.specs.Losses.{count_losses};
ghost use Rattle.lab.specs.declared.runs.BootRun.{BootRun as Run};
ghost use Rattle.lab.specs.Bound.{IsResume, HasResumes, EndsWithin};
ghost use Rattle.lab.specs.Path.{Step, Path};
ghost use Rattle.lab.specs.Campaign.{Campaigned, events_of};
ghost use Rattle.lab.specs.Noted.{Noted, LedNoted};
ghost use Rattle.lab.specs.Holding.{HeldAfter, ToldAfter, TellNone};
ghost use Rattle.client_top.specs.Answers.{end_of};
ghost use Rattle.client_top.specs.Promises.{IsOver};
ghost use Rattle.lab.specs.Cuts.{cuts_between};
ghost use Rattle.lab.specs.declared.counts.Counts.{Counts as Counted};
ghost use Rattle.lab.specs.Simulation.{Simulated, AddsUp, GoesOn};

use device_model::AREA;

/// What is held after boots in a row from the empty database. Where no deployment began it is nothing. Else a deployment stands
/// that some boot began. As long as it neither committed nor became inconsistent, it is what was held where it began, by the
/// same rule. It is what the deployment provides where it committed, all of whose modules were called to commit in a boot of
/// it, and exited 0; and that, marked, where it is inconsistent, since in a boot of it the old and the new were mixed, for one
/// of the causes. So it is of whatever may stand after a campaign on an area of zeros.
pub fn the_old_or_the_new_is_held()
    ensures paths { (site : Site) (content : Content) (d : Db) (runs : List Run) → Path site content Empty runs d
        → HeldAfter site content runs d (held d) }
    ensures campaigns { (site : Site) (boots : List Command) (old new : MemState) (source source_after : Shelf) (runs : List Run) (disk : Disk)
        → Campaigned site boots old new source source_after runs → old.device.disk ≡ Some disk
        → disk.area ≡ replicate AREA 0 → disk.unsynced ≡ unmarked disk.unsynced
        → (d : Db) → May new.device.disk d → HeldAfter site (Told source.tree) runs d (held d) }
{}

/// What an answer says is held that tells how a deployment stands, of what that deployment provides and of what was held where
/// it began: `committed` exactly the new; `inconsistent` the new, marked; `rolled back`, `not installed`, `waiting` and `reboot
/// needed` exactly the old. It stays so behind further boots whose answers tell of no deployment: none of them went on with
/// one, or was cut off by a loss or a fault of the disk.
pub fn answers_tell_what_is_held()
    ensures { (site : Site) (content : Content) (c m d : Db) (runs looks : List Run) (run : Run)
        → Path site content Empty runs c → Step site content c run m → IsOver (end_of run.status)
        → Path site content m looks d → TellNone looks
        → ToldAfter site content (runs ++ run ∷ []) run.status d }
{}

/// The notes of boots in a row are a chain, boots that were cut off included: each tells of a boot that the flow has, and the next
/// one goes on where it left the database. The boots that are noted are a path, and each path has notes. So for each database
/// that may stand after a campaign the boots led to it from one that could stand before, and their notes, which begin where the
/// databases between stood, are a chain.
pub fn notes_are_a_chain()
    ensures chain { (site : Site) (content : Content) (c d : Db) (runs : List Run) (notes : List Note)
        → Noted site content c runs d notes → Chain notes }
    ensures path { (site : Site) (content : Content) (c d : Db) (runs : List Run) (notes : List Note)
        → Noted site content c runs d notes → Path site content c runs d }
    ensures noted { (site : Site) (content : Content) (c d : Db) (runs : List Run) → Path site content c runs d
        → ((notes : List Note) × Noted site content c runs d notes) }
    ensures campaigns { (site : Site) (boots : List Command) (old new : MemState) (source source_after : Shelf) (runs : List Run) (d : Db)
        → Campaigned site boots old new source source_after runs → May new.device.disk d
        → LedNoted site (Told source.tree) old.device.disk runs d }
{}

/// A resume that finds a deployment which hasn't ended, and that no loss, no fault and no want of memory hinders, ends it or
/// enters more states than were entered before, of which there are at most 28. So after a position with `n`, 29 - `n` such
/// resumes end the deployment, whatever other boots lie between them: looks, orders that are refused, and boots that were cut
/// off.
pub fn resumes_end_a_deployment()
    ensures nearer { (site : Site) (content : Content) (c d : Db) (run : Run) → Step site content c run d → IsResume run
        → (position_of c).state ≢ Idle → Nearer (position_of c) (position_of d) }
    ensures bound { (site : Site) (content : Content) (c d : Db) (runs : List Run) → Path site content c runs d
        → All (λ r. IsResume r) runs → (position_of c).n ≤ 28 → 29 ≤ length runs + (position_of c).n
        → (position_of d).state ≡ Idle }
    ensures within { (site : Site) (content : Content) (c d : Db) (runs : List Run) (times : ℕ) → Path site content c runs d
        → HasResumes times runs → (position_of c).n ≤ 28 → 29 ≤ times + (position_of c).n
        → EndsWithin site content c runs d }
{}

/// Where a script plans no loss but its cuts, each loss takes a cut of its own: of the cuts of the children that were started
/// there are at least as many as losses. So over all boots there are at most as many losses as cuts.
pub fn losses_come_from_cuts()
    ensures losses { (script : Script) (t s : ℕ) (events : List Event) (t' s' : ℕ) → script.losses ≡ [] → s' < 2 ^ 64 - 1
        → Fits script t s events t' s' → count_losses events ≤ cuts_between s s' script.cuts }
    ensures most { (s s' : ℕ) (cuts : List ℕ) → cuts_between s s' cuts ≤ length cuts }
{}

/// The four counts of a simulation add up to its rounds.
pub fn simulations_add_up()
    ensures sum { (seed rounds : ℕ) (counts : Counted) → Simulated seed rounds counts → AddsUp counts }
    ensures all { (seed rounds : ℕ) (counts : Counted) → Simulated seed rounds counts → counts.rounds ≡ rounds }
{}

/// Each boot of a round that goes on counts a state of its deployment, also one that loses its power. So there are at most 28 of
/// them, a round ends with its 29th boot at the latest, and none is given up for the number of its boots.
pub fn rounds_are_short()
    ensures { (site : Site) (tree : Tree) (script : Script) (times : ℕ) (d : Db) (runs : List Run) (t s : ℕ) → script.losses ≡ []
        → Path site (Told tree) Empty runs d → map (λ (r : Run). r.command) runs ≡ Install ∷ replicate times Resume
        → All (λ (r : Run). GoesOn r.status) runs → Fits script 0 0 (events_of runs) t s → length runs ≤ 28 }
{}
