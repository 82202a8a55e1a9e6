//! What the stages of a round depend on.

ghost use Rattle.std.specs.Prelude.{◌≡◌, ◌↔◌, IsSome, IfSome};
ghost use Rattle.phase_message.specs.Shape.{IsShape};

/// The version of a round's rules, and how many members the group has: version 1 with 2 to 8 members.
#[derive(Clone, Copy, Debug, PartialEq, Eq)]
pub struct Shape {
    /// 1 so far.
    pub version: u8,
    /// 2 to 8.
    pub members: u8,
    pub ghost form: { IsShape version members },
}

impl Shape {
    /// The shape of these numbers: `None` exactly where no round has it.
    pub fn new(version: u8, members: u8) -> Option<Shape>
        ensures some { IsSome result ↔ IsShape version members }
        ensures numbers { IfSome result (λ shape. (shape.version ≡ version) × (shape.members ≡ members)) }
    {
        if version == 1 && 2 <= members && members <= 8 {
            Some(Shape { version, members })
        } else {
            None
        }
    }
}
