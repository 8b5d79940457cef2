ghost use Rattle.std.specs.Prelude.{◌≡◌, ◌≤◌, ℕ, List, [], Some};
ghost use Rattle.c_tree.specs.declared.declarations.Unit.{Unit};
ghost use Rattle.parse_terms.specs.declared.terminal.Terminal.{Terminal};
ghost use Rattle.parse_terms.specs.Runs.{Came};
ghost use Rattle.parse_item.specs.declared.units.UnitState.{UnitState};
ghost use Rattle.parse_item.specs.ItemGrammar.{IsUnit};
ghost use Rattle.parse_item.specs.ItemParts.{UnitPart, cap_unit};
ghost use Rattle.parse_item.specs.UnitMachine.{unit_start, unit_step, unit_finish};
ghost use Rattle.item_laws.specs.Units.{RunsTo, IsUnitRead, CanFinish};

/// The machine of units reads each unit that the grammar has, and no other.
pub fn reads_units()
    ensures complete { (n : ℕ) → 4 ≤ n → (u : Unit) (a : List Terminal) → IsUnit u a → RunsTo n unit_start a (cap_unit n u) }
    ensures sound { (n : ℕ) → 4 ≤ n → (st : UnitState) (p : UnitPart) (a : List Terminal) → Came (unit_step n) unit_start a st [] → unit_finish n st ≡ Some p → IsUnitRead n p a }
    ensures one { (u v : Unit) (a : List Terminal) → IsUnit u a → IsUnit v a → u ≡ v }
{}

/// What the machine of units has taken begins a unit: tokens follow that end it.
pub fn completes_units()
    ensures { (n : ℕ) → 4 ≤ n → (st : UnitState) (a : List Terminal) → Came (unit_step n) unit_start a st [] → CanFinish n st }
{}
