// Reports, as they are written.

ghost use Rattle.std.specs.Prelude.{[], ◌∷◌};
ghost use Rattle.base.specs.Lists.{only};
ghost use Rattle.oce_diag.specs.Reporting.{Room, Puts};

use super::{Counted, Diagnostic, count, write};

// The caller's bytes, and what was counted so far.
pub struct Report<'a> {
    pub bytes: &'a mut [u8],
    pub counted: Counted,
}

impl Report<'_> {
    // The next diagnostic: written where there is room for it, and counted in any case.
    pub fn put(&mut self, d: Diagnostic)
        requires { Room 1 self.old }
        ensures { Puts 1 (d ∷ []) self.old self.new }
    {
        write(self.bytes, self.counted.total(), d);
        self.counted = count(self.counted, d);
    }

    // Puts a diagnostic where a test passes.
    pub fn put_if(&mut self, bad: bool, d: Diagnostic)
        requires { Room 1 self.old }
        ensures { Puts 1 (only bad d) self.old self.new }
    {
        if bad {
            self.put(d);
        }
    }
}
