// Decoded rules changed in place.
ghost use Rattle.std.specs.Prelude.{◌≡◌, ℕ, map, Bool, ◌≤◌, ◌<◌, length};
ghost use Rattle.lists.specs.Lists.{from, keep};
ghost use Rattle.automaton.specs.Automaton.{renamed};
ghost use Rattle.automaton.specs.Row.{rule_of, rule_at, rules_of};
ghost use Rattle.reduction.specs.Inner.{name_in};

use automaton::Row;

// Moves the rules that pass a test to the front, in order, and returns them. The test is asked of each rule's number and the rule.
pub fn retain<F: Fn(usize, &Row) -> bool>(rules: &mut [Row], passes: F) -> &mut [Row]
    requires { (i : ℕ) (row : _) → i < length rules.old → F.pre passes i row }
    ensures few { length result.now ≤ length rules.old }
    ensures rules { (test : ℕ → Bool)
        → ((i : ℕ) (row : _) (b : Bool) → F.post passes i row b
        → i < length rules.old → rule_at (rules_of rules.old) i ≡ rule_of row.now → b ≡ test i)
        → rules_of result.now ≡ map (rule_at (rules_of rules.old)) (keep test (from 0 (length rules.old))) }
{
    let mut kept = 0;
    // By number: the array is read and written at once.
    for i in 0..rules.len() {
        if passes(i, &rules[i]) {
            rules[kept] = rules[i];
            kept += 1;
        }
    }
    &mut rules[..kept]
}

// Gives the target and the children of each rule their new names.
pub fn rename_rules(rules: &mut [Row], names: &[u8; 256])
    ensures { rules_of rules.new ≡ map (renamed (name_in names.now)) (rules_of rules.old) }
{
    for rule in rules.iter_mut() {
        *rule = rule.renamed(names);
    }
}
