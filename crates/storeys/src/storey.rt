// The call on a storey, over a lent row of members.
ghost use Rattle.std.specs.Prelude.{◌≡◌};
ghost use Rattle.records.specs.Refusals.{numbered};
ghost use Rattle.storeys.specs.Storey.{published_rules, storey_answer_by, returned_storey, storey_returned};
ghost use Rattle.storeys.specs.Tally.{walls_suffice_of};

use crate::StoreyJudgment;
use crate::good_storey::GoodStorey;
use checks::check_members;
use members::knowledge::Knowledge;
use records::form::Form;
use records::refusal::Refusal;
use records::{Member, Storey};
use totals::adding::add_wall;
use totals::finding::meets;
use validity::check_storey;

// The walls of a storey carry at least 0.40 of its shear in case c, counted from 0.
pub fn walls_suffice(shear: u64, rows: &[Member], c: usize) -> bool
    ensures { result ≡ walls_suffice_of c shear rows.now }
{
    let mut walls = 0;
    for m in rows {
        walls = add_wall(walls, m, c);
    }
    meets(shear, walls)
}

// The call on a storey: k is its survey's knowledge level, form its survey's form.
pub fn judge_storey(
    k: u64,
    form: u64,
    s: &Storey,
    rows: &[Member],
) -> Result<StoreyJudgment, Refusal>
    ensures answer { numbered result ≡ storey_answer_by published_rules k form s.now rows.now }
    ensures returned { returned_storey (numbered result) ≡ storey_returned k form s.now rows.now }
{
    if s.count != rows.len() as u64 {
        return Err(Refusal::Structure);
    }
    let level = Knowledge::try_from(k)?;
    let form = Form::try_from(form)?;
    check_storey(form, s)?;
    check_members(form, rows)?;
    let storey = GoodStorey {
        form,
        level,
        storey: s,
        members: rows,
    };
    Ok(storey.judgment())
}
