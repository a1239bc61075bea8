// A system, as its file says it.
ghost use Rattle.std.specs.Prelude.{◌≡◌, ◌≤◌, true, length};
ghost use Rattle.files.specs.Pattern.{fits};
ghost use Rattle.files.specs.Pieces.{every};
ghost use Rattle.files.specs.Sizes.{right_sizes};
ghost use Rattle.files.specs.Transition.{is_drawn};

use crate::pattern::Pattern;
use crate::transition::Transition;

#[derive(Drop)]
pub struct System {
    pub(crate) variables: u8,
    pub(crate) values: u8,
    // the state count of each process
    pub(crate) states: Vec<u8>,
    pub(crate) transitions: Vec<Transition>,
    pub(crate) patterns: Vec<Pattern>,
    // what the lookups promise of every system
    ghost sized: { right_sizes states.items variables values ≡ true },
    ghost few: { length transitions.items ≤ 64 },
    ghost drawn: { every (is_drawn states.items variables values) transitions.items ≡ true },
    ghost short: { length patterns.items ≤ 16 },
    ghost fitting: { every (fits states.items) patterns.items ≡ true },
}
