//! Laws of the tables, for every valid position.

ghost use Rattle.std.specs.Prelude.{◌≡◌, ◌≢◌, ◌⊎◌, Bool, IsTrue};
ghost use Rattle.flow_table.specs.Valid.{is_valid};
ghost use Rattle.flow_table.specs.Table.{IsRunning, fresh_position, next_of, lost_of, first_of};
ghost use Rattle.flow_table.specs.Laws.{Counted, Breaks, BreaksAtLoss};
ghost use Rattle.flow_table.specs.declared.position.Position.{Position};
ghost use Rattle.flow_table.specs.declared.position.State.TheVariants as state;
ghost use Rattle.flow_table.specs.declared.position.Outcome.TheVariants.{Undecided, Committed, Inconsistent};
ghost use Rattle.flow_table.specs.declared.table.Heard.{Heard};
ghost use Rattle.flow_table.specs.declared.table.Heard.TheVariants.{Fine};
ghost use Rattle.flow_table.specs.declared.table.Step.TheVariants as step;
ghost use Rattle.flow_table.specs.declared.table.Order.{Order};
ghost use Rattle.flow_table.specs.declared.table.Opening.TheVariants as opening;

/// Each position that is entered is valid.
pub fn steps_are_valid()
    ensures fresh { IsTrue (is_valid fresh_position) }
    ensures next { (p q : Position) (heard : Heard) (stop : Bool) → IsTrue (is_valid p)
        → next_of p heard stop ≡ step.Enter q → IsTrue (is_valid q) }
    ensures lost { (p : Position) → IsTrue (is_valid p) → IsRunning p.state → IsTrue (is_valid (lost_of p)) }
    ensures first { (p q : Position) (order : Order) → IsTrue (is_valid p)
        → first_of p order ≡ opening.Enter q → IsTrue (is_valid q) }
{}

/// Each state that is entered is counted, and there are at most 28; the deployment ends at Idle. So
/// it is at every position, valid or not.
pub fn steps_are_counted()
    ensures next { (p q : Position) (heard : Heard) (stop : Bool)
        → next_of p heard stop ≡ step.Enter q → Counted p q }
    ensures lost { (p : Position) → IsRunning p.state → Counted p (lost_of p) }
    ensures first { (p q : Position) (order : Order)
        → first_of p order ≡ opening.Enter q → Counted p q }
{}

/// What was decided stays.
pub fn decisions_stay()
    ensures next { (p q : Position) (heard : Heard) (stop : Bool) → IsTrue (is_valid p) → p.outcome ≢ Undecided
        → next_of p heard stop ≡ step.Enter q → q.outcome ≡ p.outcome }
    ensures lost { (p : Position) → IsTrue (is_valid p) → IsRunning p.state → p.outcome ≢ Undecided
        → (lost_of p).outcome ≡ p.outcome }
    ensures first { (p q : Position) (order : Order) → IsTrue (is_valid p) → p.outcome ≢ Undecided
        → first_of p order ≡ opening.Enter q → q.outcome ≡ p.outcome }
{}

/// A deployment is committed by a Commit that went well, and by nothing else.
pub fn only_commit_commits()
    ensures commits { (p q : Position) (stop : Bool) → p.state ≡ state.Commit
        → next_of p Fine stop ≡ step.Enter q → q.outcome ≡ Committed }
    ensures next { (p q : Position) (heard : Heard) (stop : Bool) → IsTrue (is_valid p)
        → next_of p heard stop ≡ step.Enter q → q.outcome ≡ Committed
        → (p.outcome ≡ Committed) ⊎ ((p.state ≡ state.Commit) × (heard ≡ Fine)) }
    ensures lost { (p : Position) → IsTrue (is_valid p) → IsRunning p.state
        → (lost_of p).outcome ≡ Committed → p.outcome ≡ Committed }
    ensures first { (p q : Position) (order : Order) → IsTrue (is_valid p)
        → first_of p order ≡ opening.Enter q → q.outcome ≡ Committed → p.outcome ≡ Committed }
{}

/// A deployment becomes inconsistent for one of three reasons: it can't be rolled back, its rollback
/// failed, or it came to the limit with nothing decided.
pub fn inconsistency_has_a_cause()
    ensures next { (p q : Position) (heard : Heard) (stop : Bool) → IsTrue (is_valid p)
        → next_of p heard stop ≡ step.Enter q → q.outcome ≡ Inconsistent → Breaks p heard }
    ensures lost { (p : Position) → IsTrue (is_valid p) → IsRunning p.state
        → (lost_of p).outcome ≡ Inconsistent → BreaksAtLoss p }
    ensures first { (p q : Position) (order : Order) → IsTrue (is_valid p)
        → first_of p order ≡ opening.Enter q → q.outcome ≡ Inconsistent → BreaksAtLoss p }
{}

/// Before it is known how a reboot ended, neither a loss of power nor an order breaks a deployment, but for the limit: also one
/// that can't be rolled back goes on.
pub fn a_reboot_breaks_nothing()
    ensures lost { (p : Position) → IsTrue (is_valid p) → p.state ≡ state.Reboot
        → (lost_of p).outcome ≡ Inconsistent → p.n ≡ 28 }
    ensures first { (p q : Position) (order : Order) → IsTrue (is_valid p) → p.state ≡ state.Reboot
        → first_of p order ≡ opening.Enter q → q.outcome ≡ Inconsistent → p.n ≡ 28 }
    ensures causes { (p : Position) → IsTrue (is_valid p) → p.state ≡ state.Reboot → BreaksAtLoss p → p.n ≡ 28 }
{}
