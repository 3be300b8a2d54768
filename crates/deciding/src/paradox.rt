// Orders that contradict each other (the club: a contradiction), and the rule that ends it.
ghost use Rattle.std.specs.Prelude.{◌≡◌, ◌≤◌, ◌&&◌, ◌||◌, length, vec_len, vec_capacity};
ghost use Rattle.values.specs.declared.tri.Tri.TheVariants.{Open};
ghost use Rattle.values.specs.Tri.{is_open};
ghost use Rattle.board.specs.Order.{is_move, is_support};
ghost use Rattle.board.specs.Atlas.{board_of};
ghost use Rattle.paths.specs.Paths.{paths_of};
ghost use Rattle.deciding.specs.Outcome.{paradox, strand};

use assignment::Resolution;
use board::Atlas;
use paths::refill;
use values::Tri;

// Whether a unit with this path moves, and its path is open.
pub fn adrift(x: &Resolution, path: Tri) -> bool
    ensures { result ≡ (is_move x.now.order && is_open path) }
{
    x.order.is_move() && path.is_open()
}

// Whether its support or its path stays open.
pub fn unsettled(x: &Resolution, path: Tri) -> bool
    ensures { result ≡ ((is_support x.now.order && is_open x.now.value) || (is_move x.now.order && is_open path)) }
{
    x.order.is_support() && x.value.is_open() || adrift(x, path)
}

// This and `strand_into` take no `Round`, since they ask for no tables of the orders.
pub fn paradox(atlas: &Atlas, paths: &[Tri], xs: &[Resolution]) -> bool
    requires paths { paths.now ≡ paths_of (board_of atlas.now) xs.now }
    ensures { result ≡ paradox (board_of atlas.now) xs.now }
{
    let mut units = xs.iter().zip(paths);
    units.any(|(x, path)| unsettled(x, *path))
}

// A unit with this path is open again, and without a path if that was open.
pub fn strand_one(x: &Resolution, path: Tri) -> Resolution
    ensures { result ≡ record { unit = x.now.unit; order = x.now.order; value = Open; stranded = x.now.stranded || (is_move x.now.order && is_open path) } }
{
    Resolution {
        value: Tri::Open,
        stranded: x.stranded || adrift(x, path),
        ..*x
    }
}

// Every move whose path is open loses it, and everything is open again.
pub fn strand_into(atlas: &Atlas, paths: &[Tri], xs: &[Resolution], out: &mut Vec<Resolution>)
    requires few { length xs.now ≤ 128 }
    requires paths { paths.now ≡ paths_of (board_of atlas.now) xs.now }
    requires room { 128 ≤ vec_capacity out.old }
    ensures items { out.new.items ≡ strand (board_of atlas.now) xs.now }
    ensures len { vec_len out.new ≡ length xs.now }
    ensures cap { vec_capacity out.new ≡ vec_capacity out.old }
{
    let units = xs.iter().zip(paths);
    refill(out, units.map(|(x, path)| strand_one(x, *path)));
}
