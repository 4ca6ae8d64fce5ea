// The states of a set, rising.
ghost use Rattle.std.specs.Prelude.{◌≡◌, ◌<◌};
ghost use Rattle.std.specs.Iterator.{YieldsFirst, item_count};

// What is left of a set: the bits of `rest` stand for those of word `at`, and the words behind it are whole.
#[derive(Debug, Drop)]
pub struct States {
    words: [u64; 4],
    at: usize,
    rest: u64,
    ghost inside: { at < 4 },
}

impl States {
    ghost use Rattle.sets.specs.Inner.{states_in, states_left};

    // All states of a set's words.
    pub(crate) fn of(words: [u64; 4]) -> Self
        ensures { states_left result ≡ states_in 256 words }
    {
        States {
            words,
            at: 0,
            rest: words[0],
        }
    }
}

impl Iterator for States {
    ghost use Rattle.sets.specs.Inner.{states_left};

    type Item = u8;

    ghost next_gives = { YieldsFirst states_left };

    ghost remaining = { item_count states_left };

    fn next(&mut self) -> Option<u8> {
        while self.rest == 0 {
            if self.at >= 3 {
                return None;
            }
            self.at += 1;
            self.rest = self.words[self.at];
        }
        let rest = self.rest;
        self.rest = rest & (rest - 1);
        Some((64 * self.at) as u8 + rest.trailing_zeros() as u8)
    }
}
