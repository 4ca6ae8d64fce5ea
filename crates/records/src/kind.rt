// The kinds of records that document 01 names.
ghost use Rattle.std.specs.Prelude.{◌≡◌};
ghost use Rattle.records.specs.Kind.{code_of};

#[derive(Clone, Copy, Debug, PartialEq, Eq)]
pub enum Kind {
    // 1: the counts of a table.
    Size,
    // 2: the ranks of its symbols.
    Ranks,
    // 3: its final states.
    Finals,
    // 4: a rule.
    Rule,
    // 16: a tree.
    Tree,
}

// Document 01's number of a kind.
impl From<Kind> for u16 {
    ghost from_gives = { λ kind code. code ≡ code_of kind };

    fn from(kind: Kind) -> u16 {
        match kind {
            Kind::Size => 1,
            Kind::Ranks => 2,
            Kind::Finals => 3,
            Kind::Rule => 4,
            Kind::Tree => 16,
        }
    }
}
