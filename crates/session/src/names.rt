// The names of a board's regions, for what prints them.
ghost use Rattle.std.specs.Prelude.{◌≡◌};
ghost use Rattle.session.specs.Tables.{place_names};

use super::start::Gazetteer;
use show::Named;

// A region that the board doesn't have has the empty name.
impl<'a> Named for Gazetteer<'a> {
    ghost named = { λ s. place_names s };

    fn name(&self, r: u8) -> &[u8] {
        if (r as usize) < self.names.count() {
            self.names.get(r as usize)
        } else {
            b""
        }
    }
}
