// A decoded rule. What a row looks like is known here alone.
ghost use Rattle.std.specs.Prelude.{◌≡◌, ◌≤◌, ◌<◌, ℕ, get_or, length};

// The most rules that a table has, and how many a short one has at most.
pub const RULES: usize = 1024;

pub const FEW_RULES: usize = 128;

// A rule: its symbol, its target, how many children it has, and room for eight of them.
#[derive(Clone, Copy)]
pub struct Row {
    symbol: u8,
    target: u8,
    rank: u8,
    children: [u8; 8],
    ghost rank_in: { rank ≤ 8 },
    ghost room: { length children ≡ 8 },
    ghost numbers: { (symbol < 256) × (target < 256) },
    ghost states: { (i : ℕ) → get_or children i 0 < 256 },
}

impl Row {
    ghost use Rattle.automaton.specs.Automaton.{renamed};
    ghost use Rattle.automaton.specs.Table.{rule_in};
    ghost use Rattle.automaton.specs.Row.{rule_of};
    ghost use Rattle.automaton.specs.Inner.{RuleBody};

    // What stands in an array before there are rules.
    pub const EMPTY: Row = Row {
        symbol: 0,
        target: 0,
        rank: 0,
        children: [0; 8],
    };

    // The rule in a rule's body.
    pub fn read(b: &[u8]) -> Row
        requires { RuleBody b.now }
        ensures { rule_of result ≡ rule_in b.now }
    {
        let mut children = [0; 8];
        for (i, q) in b[4..].chunks_exact(2).enumerate() {
            children[i] = q[0];
        }
        Row {
            symbol: b[0],
            target: b[2],
            rank: ((b.len() - 4) / 2) as u8,
            children,
        }
    }

    pub fn symbol(self) -> u8
        ensures { result ≡ (rule_of self).symbol }
    {
        self.symbol
    }

    pub fn target(self) -> u8
        ensures { result ≡ (rule_of self).target }
    {
        self.target
    }

    pub fn children(&self) -> &[u8]
        ensures { result.now ≡ (rule_of self.now).children }
    {
        &self.children[..usize::from(self.rank)]
    }

    // The same, where their number is known already: the row is not asked for it.
    pub fn children_of_rank(&self, rank: usize) -> &[u8]
        requires { rank ≡ length (rule_of self.now).children }
        ensures { result.now ≡ (rule_of self.now).children }
    {
        &self.children[..rank]
    }

    // The rule with new names for its states.
    pub fn renamed(self, names: &[u8]) -> Row
        requires { 256 ≤ length names.now }
        ensures { rule_of result ≡ renamed (λ (q : ℕ). get_or names.now q 0) (rule_of self) }
    {
        Row {
            symbol: self.symbol,
            target: names[usize::from(self.target)],
            rank: self.rank,
            children: self.children.map(|child| names[usize::from(child)]),
        }
    }
}
