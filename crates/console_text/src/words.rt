// Words for numbers, where no rule fixes them.
ghost use Rattle.std.specs.Prelude.{Some, ◌∷◌, ◌++◌, cond, eqb};
ghost use Rattle.std.specs.Fmt.{decimal};

use std::fmt;
use std::fmt::{Display, Formatter, Write};

// A number with the word for one or for several.
#[derive(Clone, Copy, Debug, Drop)]
pub struct Count(pub u64, pub &'static str, pub &'static str);

impl Display for Count {
    ghost output = { λ c. Some (decimal c.0 ++ (32 ∷ cond (eqb c.0 1) c.1.now c.2.now)) };

    fn fmt<W: Write>(&self, f: &mut Formatter<W>) -> fmt::Result {
        let word = if self.0 == 1 { self.1 } else { self.2 };
        write!(f, "{} {word}", self.0)
    }
}
