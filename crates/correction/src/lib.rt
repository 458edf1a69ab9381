// Document 000, `split_closed_faces.rs`: the call `nearest_correction`, with what it refuses.
#![tactic(auto)]

pub mod nearest;

ghost use Rattle.std.specs.Prelude.{◌≡◌};
ghost use Rattle.compress.specs.Refusals.{cause_of};
ghost use Rattle.compress.specs.Said.{said_if};
ghost use Rattle.correction.specs.Correction.{stretches_cause, ends_cause, nearest_correction};
ghost use Rattle.correction.specs.Lent.{lent};

use crate::nearest::Ends;
use crate::nearest::sound::SoundTables;
use compress::{Checked, Refusal};
use rows::lent::Stretch;
use rows::tables::Tables;

fn stretches_cause(edges: usize, first: &Stretch, second: &Stretch) -> Checked
    ensures { cause_of result ≡ stretches_cause edges first.now.uses.now first.now.count second.now.uses.now second.now.count }
{
    let a = first.lent_uses().ok_or(Refusal::Malformed)?;
    let b = second.lent_uses().ok_or(Refusal::Malformed)?;
    checks::count(1024, a.len() + b.len())?;
    checks::lower(checks::uses(edges, a), checks::uses(edges, b))
}

#[tactic(auto, unfolding(crate::specs::Correction::ends_cause))]
fn ends_cause(tables: &Tables, first: &Stretch, second: &Stretch, v0: u32) -> Checked
    ensures { cause_of result ≡ ends_cause (lent tables.now first.now second.now v0) }
{
    let t = checks::points::tables_cause(tables);
    let w = stretches_cause(tables.edges.count, first, second);
    let v = checks::vertex_number(tables.vertices.count, v0);
    checks::lower(t, checks::lower(v, w))
}

// `nearest_correction`: the nearest ends of two stretches, seen from vertex v0. Two parameters, as the call has them, here and in `nearest`.
#[tactic(auto, using(crate::proofs::Accepted::checked), unfolding(crate::specs::Correction::nearest_correction))]
pub fn nearest_correction(
    tables: &Tables,
    first: &Stretch,
    second: &Stretch,
    v0: u32,
) -> Result<Option<Ends>, Refusal>
    ensures { said_if (λ e. e) result ≡ nearest_correction (lent tables.now first.now second.now v0) }
{
    ends_cause(tables, first, second, v0)?;
    let tables = SoundTables {
        vertices: tables.vertices,
        edges: tables.edges,
    };
    let first = &first.uses[..first.count];
    let second = &second.uses[..second.count];
    Ok(nearest::nearest_ends(&tables, first, second, v0))
}
