// The number and place of each refusal (document 01, "Reply numbers"; document 02).
ghost use Rattle.std.specs.Prelude.{◌≡◌};
ghost use Rattle.limits.specs.Reply.{number as Reply·number, place as Reply·place};

use crate::Refusal;

impl Refusal {
    pub fn number(self) -> u64
        ensures { result ≡ Reply·number self }
    {
        match self {
            Refusal::Frame => 1,
            Refusal::Size => 2,
            Refusal::Corner(_) => 3,
            Refusal::Cell(_) => 4,
            Refusal::Neighbour(_) => 5,
            Refusal::Door(_) => 6,
            Refusal::Overlap(_) => 17,
            Refusal::Setting => 7,
            Refusal::Stand => 8,
            Refusal::Line => 9,
            Refusal::Outside => 10,
            Refusal::Room => 11,
            Refusal::Change => 12,
            Refusal::Rows => 13,
            Refusal::Far => 14,
            Refusal::Reach => 15,
            Refusal::Ceiling => 19,
        }
    }

    // 0 where a refusal has no place.
    pub fn place(self) -> u64
        ensures { result ≡ Reply·place self }
    {
        match self {
            Refusal::Corner(i)
            | Refusal::Cell(i)
            | Refusal::Neighbour(i)
            | Refusal::Door(i)
            | Refusal::Overlap(i) => i as u64,
            _ => 0,
        }
    }
}
