// The figures of the rules: what some small models come to, shown of the same definitions that the contracts of the library cite.
#![tactic(auto)]

ghost use Rattle.figures.specs.Figures.{Figures};

// Every figure stands, all of them in one statement. Computes nothing: its contract is that statement.
pub fn figures_stand() -> bool
    ensures { Figures }
{
    true
}
