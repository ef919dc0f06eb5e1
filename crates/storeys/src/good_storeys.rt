// The storeys of a good survey in turn, each with its own members.
ghost use Rattle.records.specs.Forms.{form_number};
ghost use Rattle.checks.specs.RowsInTurn.{storeys_left, members_left};
ghost use Rattle.storeys.specs.Rows.{GoodRows};

use crate::good_storey::GoodStorey;
use checks::storey_rows::StoreyRows;
use members::knowledge::Knowledge;
use records::form::Form;

// The storeys that are left, and the form and the knowledge level of their survey.
#[derive(Drop)]
pub struct GoodStoreys<'a> {
    pub(crate) rows: StoreyRows<'a>,
    pub(crate) form: Form,
    pub(crate) level: Knowledge,
    pub(crate) ghost good: { GoodRows (form_number form) (storeys_left rows) (members_left rows) },
}

impl<'a> Iterator for GoodStoreys<'a> {
    ghost use Rattle.std.specs.Iterator.{item_count};
    ghost use Rattle.storeys.specs.GoodStoreys.{rows_left, GivesGoodStorey};

    type Item = GoodStorey<'a>;

    ghost next_gives = { GivesGoodStorey };

    ghost remaining = { λ good. item_count storeys_left (rows_left good) };

    #[tactic(auto, using(crate::proofs::GoodStoreys::left_good))]
    fn next(&mut self) -> Option<GoodStorey<'a>> {
        let (storey, members) = self.rows.next()?;
        Some(GoodStorey {
            form: self.form,
            level: self.level,
            storey,
            members,
        })
    }
}
