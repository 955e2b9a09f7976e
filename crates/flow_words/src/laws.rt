//! Laws of words and of their parts.

ghost use Rattle.std.specs.Prelude.{◌≡◌, ℕ, Bool, true, List, [], ◌∷◌, ◌++◌, ◌↔◌, ◌⊎◌, ◌≢◌, ◌+◌, ◌≤◌, Some, IsTrue};
ghost use Rattle.device_model.specs.declared.calls.Event.{Event};
ghost use Rattle.device_model.specs.declared.calls.Answer.{Answer};
ghost use Rattle.flow_words.specs.Course.{Course, Whole, Part, Follows};
ghost use Rattle.flow_words.specs.Played.{events_for, result_for};
ghost use Rattle.flow_words.specs.Scripts.{block, run, IsIgnored};
ghost use Rattle.flow_words.specs.Blocks.{IsBlock};
ghost use Rattle.flow_words.specs.Examples.{TriesThirtyOne, StopsAtTheFirst, GoesOnIgnored, StartsOnce};
ghost use Rattle.flow_words.specs.declared.mode.Mode.{Mode};
ghost use Rattle.flow_table.specs.declared.position.Position.{Position};
ghost use Rattle.flow_table.specs.declared.table.Heard.{Heard};
ghost use Rattle.flow_table.specs.declared.table.Order.{Order};
ghost use Rattle.flow_table.specs.declared.table.Opening.TheVariants as opening;
ghost use Rattle.flow_table.specs.Table.{first_of, fresh_position};
ghost use Rattle.flow_table.specs.Valid.{is_valid};
ghost use Rattle.flow_words.specs.Pieces.{End, Halted, Pieces};
ghost use Rattle.flow_words.specs.Decided.{IsThrough, StandsAt};
ghost use Rattle.flow_words.specs.Agrees.{Agrees, OneBegins};
ghost use Rattle.flow_words.specs.StateExamples.{DownloadAsks, InstallFails, Reboots, CallsNothing, DownloadAsksBoth, InstallHearsBoth, FailureEndsCalls};
ghost use Rattle.flow_words.specs.Counting.{Resumptions};
ghost use Rattle.flow_words.specs.Power.{ArePowered, KeepsPower};
ghost use Rattle.flow_words.specs.RunLists.{IsCheckedRun, IsIgnoredRun, IsRunOnce};
ghost use Rattle.flow_words.specs.declared.mode.Mode.TheVariants as mode;
ghost use Rattle.flow_table.specs.Bound.{Nearer};
ghost use Rattle.flow_words.specs.declared.rows.Row.{Row};
ghost use Rattle.flow_words.specs.Words.{Callees, word, word_at};
ghost use Rattle.flow_words.specs.Steps.{IsRun};
ghost use Rattle.flow_words.specs.Causes.{HasCommit, Broke};
ghost use Rattle.flow_words.specs.Well.{GoesWell, IsGoodEnd};
ghost use Rattle.flow_table.specs.declared.position.Outcome.TheVariants.{Committed, Inconsistent};

/// No event at all is a part of each course, and so is each whole word.
pub fn nothing_is_a_part<A>()
    ensures none { (t : Course A) → Part t [] }
    ensures whole { (t : Course A) (w : List Event) (r : A) → Whole t w r → Part t w }
{}

/// A part is what begins some whole word.
pub fn a_part_begins_a_word<A>()
    ensures begins { (t : Course A) (w : List Event) → Part t w → ((v : List Event) × (r : A) × Whole t (w ++ v) r) }
    ensures is_part { (t : Course A) (w v : List Event) (r : A) → Whole t (w ++ v) r → Part t w }
{}

/// What begins a part is a part.
pub fn a_front_of_a_part_is_a_part<A>()
    ensures { (t : Course A) (w v : List Event) → Part t (w ++ v) → Part t w }
{}

/// A part stays one by an event exactly where that event may come next.
pub fn a_part_goes_on<A>()
    ensures { (t : Course A) (w : List Event) (e : Event) → Part t w → (Follows t w e ↔ Part t (w ++ e ∷ [])) }
{}

/// The events decide the result, and no word begins another.
pub fn words_differ<A>()
    ensures { (t : Course A) (w v x y : List Event) (r s : A) → Whole t w r → Whole t v s → w ++ x ≡ v ++ y → (w ≡ v) × (r ≡ s) }
{}

/// What is played by some answers is a word, where they are as many as it takes.
pub fn answers_decide<A>()
    ensures whole { (t : Course A) (answers : List Answer) (r : A) → result_for t answers ≡ Some r → Whole t (events_for t answers) r }
    ensures part { (t : Course A) (answers : List Answer) → Part t (events_for t answers) }
{}

/// The events of a script are at most 30 tries that exit with 21, each with a pause of 60 behind it, and a last one that
/// exits otherwise or has no try left.
pub fn a_block_is_tries()
    ensures { (name : List ℕ) (w : List Event) (good : Bool) → (Whole (block name 30) w good ↔ IsBlock name w good) }
{}

/// A whole word of a state is a run of its steps: Enter scripts, main call, question and Leave scripts, up to and with the
/// first that fails, and then the Error scripts.
pub fn a_word_is_its_steps()
    ensures { (who : Callees) (row : Row) (w : List Event) (h : Heard) → (Whole (word who row) w h ↔ IsRun who row w h) }
{}

/// A run whose answers are ignored is good.
pub fn ignored_runs_are_good()
    ensures { (names : List (List ℕ)) (mode : Mode) (w : List Event) (good : Bool) → IsIgnored mode → Whole (run names mode) w good → good ≡ true }
{}

/// A checked run is good blocks, and then no more or one that isn't good. An ignored one is the blocks of all scripts, and
/// one in mode Once their starts and ends; both are good.
pub fn runs_are_blocks()
    ensures checked { (names : List (List ℕ)) (w : List Event) (good : Bool) → (Whole (run names mode.Checked) w good ↔ IsCheckedRun names w good) }
    ensures ignored { (names : List (List ℕ)) (w : List Event) (good : Bool) → (Whole (run names mode.Ignored) w good ↔ ((good ≡ true) × IsIgnoredRun names w)) }
    ensures once { (names : List (List ℕ)) (w : List Event) (good : Bool) → (Whole (run names mode.Once) w good ↔ ((good ≡ true) × IsRunOnce names w)) }
{}

/// Worked runs.
pub fn words_of_scripts()
    ensures tries { TriesThirtyOne }
    ensures checked { StopsAtTheFirst }
    ensures ignored { GoesOnIgnored }
    ensures once { StartsOnce }
{}

/// A deployment goes from valid positions to valid positions, in which at most 28 states were entered, and never back to
/// fewer.
pub fn states_are_valid()
    ensures valid { (words : Position → Course Heard) (stop : Bool) (p q : Position) (events : List Event) (end : End)
        → Pieces words stop p events end q → IsTrue (is_valid p) → IsTrue (is_valid q) }
    ensures few { (p : Position) → IsTrue (is_valid p) → (1 ≤ p.n) × (p.n ≤ 28) }
    ensures keep { (words : Position → Course Heard) (stop : Bool) (p q : Position) (events : List Event) (end : End)
        → Pieces words stop p events end q → p.n ≤ q.n }
{}

/// What begins the events of a deployment are events of one that was cut off.
pub fn a_front_was_cut_off()
    ensures { (words : Position → Course Heard) (stop : Bool) (p q : Position) (front back : List Event) (end : End)
        → Pieces words stop p (front ++ back) end q → ((last : Position) × Pieces words stop p front Halted last) }
{}

/// Of two deployments from the same position with the same answers, the events of one begin those of the other.
pub fn answers_decide_the_events()
    ensures { (words : Position → Course Heard) (stop : Bool) (p q r : Position) (w v : List Event) (end other : End)
        → Pieces words stop p w end q → Pieces words stop p v other r → Agrees w v → OneBegins w v }
{}

/// The events decide how a deployment ends that wasn't cut off, and at which position.
pub fn events_decide_the_end()
    ensures { (words : Position → Course Heard) (stop : Bool) (p q r : Position) (events : List Event) (end other : End)
        → Pieces words stop p events end q → Pieces words stop p events other r → IsThrough end → IsThrough other → (end ≡ other) × (q ≡ r) }
{}

/// A deployment that ended stands at Idle with its outcome, one that waits at Wait, and one that needs a reboot at Reboot or
/// at RollbackReboot.
pub fn ends_tell_the_position()
    ensures { (words : Position → Course Heard) (stop : Bool) (p q : Position) (events : List Event) (end : End)
        → Pieces words stop p events end q → StandsAt end q }
{}

/// An order that enters a position leads to more states than were entered before, of which there are at most 28, or the
/// deployment ends, however it is cut off. So at most 29 - `n` resumptions end one that stands at a position with `n`.
pub fn orders_go_on()
    ensures goes_on { (words : Position → Course Heard) (stop : Bool) (c p q : Position) (order : Order) (events : List Event) (end : End)
        → first_of c order ≡ opening.Enter p → Pieces words stop p events end q → Nearer c q }
    ensures resumptions { (words : Position → Course Heard) (c q : Position) (times : ℕ)
        → c.n ≤ 28 → Resumptions words c times q → times + c.n ≤ 29 }
{}

/// A deployment is committed by its modules, which were called to commit and exited 0. It becomes inconsistent by a failure that
/// can't be rolled back, by a rollback that failed, or at the limit of states with nothing decided.
pub fn outcomes_have_causes()
    ensures committed { (who : Callees) (stop : Bool) (p q : Position) (events : List Event) (end : End)
        → Pieces (word_at who) stop p events end q → IsTrue (is_valid p) → q.outcome ≡ Committed
        → (p.outcome ≡ Committed) ⊎ HasCommit who.kinds events }
    ensures inconsistent { (words : Position → Course Heard) (stop : Bool) (p q : Position) (events : List Event) (end : End)
        → Pieces words stop p events end q → IsTrue (is_valid p) → q.outcome ≡ Inconsistent
        → (p.outcome ≡ Inconsistent) ⊎ Broke words stop p events }
{}

/// Where every child exits 0, every reply can be read and all modules say the same of a rollback, a fresh deployment ends
/// committed, waits, or needs a reboot, if it isn't cut off.
pub fn what_goes_well_ends_well()
    ensures { (who : Callees) (can stop : Bool) (q : Position) (events : List Event) (end : End)
        → who.kinds ≢ [] → Pieces (word_at who) stop fresh_position events end q → GoesWell can events → IsGoodEnd end }
{}

/// Worked states.
pub fn words_of_states()
    ensures download { DownloadAsks }
    ensures install { InstallFails }
    ensures reboot { Reboots }
    ensures nothing { CallsNothing }
    ensures asks_both { DownloadAsksBoth }
    ensures hears_both { InstallHearsBoth }
    ensures failure { FailureEndsCalls }
{}

/// No power is lost in a part of a course that never says so, as a run of scripts and the word of a state, nor in the
/// events of a deployment.
pub fn no_power_is_lost_in_a_part<A>()
    ensures part { (t : Course A) (w : List Event) → KeepsPower t → Part t w → ArePowered w }
    ensures run { (names : List (List ℕ)) (mode : Mode) → KeepsPower (run names mode) }
    ensures state { (who : Callees) (row : Row) → KeepsPower (word who row) }
    ensures pieces { (who : Callees) (stop : Bool) (p q : Position) (events : List Event) (end : End)
        → Pieces (word_at who) stop p events end q → ArePowered events }
{}
