// Document 01's table of refusals.
ghost use Rattle.image.specs.Refusal.{number_of};
ghost use Rattle.std.specs.Prelude.{◌≡◌};

#[derive(Clone, Copy, PartialEq, Eq)]
pub enum Refusal {
    Length,
    Block(usize),
    Head,
    Count,
    Fill,
    Lent,
    Unsound,
    Stopped,
    Done,
    Short,
}

// The table's number. A `match`, since a refusal that holds its block has no `as`.
impl From<Refusal> for u16 {
    ghost from_gives = { λ r n. n ≡ number_of r };

    fn from(r: Refusal) -> u16 {
        match r {
            Refusal::Length => 1,
            Refusal::Block(_) => 2,
            Refusal::Head => 3,
            Refusal::Count => 4,
            Refusal::Fill => 5,
            Refusal::Lent => 6,
            Refusal::Unsound => 7,
            Refusal::Stopped => 8,
            Refusal::Done => 9,
            Refusal::Short => 10,
        }
    }
}
