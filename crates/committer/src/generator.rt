// Origin: none.
// The generator for C: it takes no state and no tables.
ghost use Rattle.std.specs.Prelude.{◌≡◌};
ghost use Rattle.spec.specs.Pcg.{stepped, draw_of, seeded};
ghost use Rattle.models.specs.Digest.{digest_at};
ghost use Rattle.pcg.specs.Generator.{generator_of};

use models::parts::Digest;
use pcg::pcg::{Drawn, Pcg, draw, seed};

#[unsafe(no_mangle)]
pub extern "C" fn committer_seed(digest: Digest) -> Pcg
    ensures { generator_of result ≡ seeded (digest_at digest.0 0) }
{
    seed(digest)
}

#[unsafe(no_mangle)]
pub extern "C" fn committer_draw(generator: Pcg) -> Drawn
    ensures { (result.value ≡ draw_of (generator_of generator)) × (generator_of result.next ≡ stepped (generator_of generator)) }
{
    draw(generator)
}
