//! Tests on the columns of a table.
ghost use Rattle.std.specs.Prelude.{◌≡◌, length, option_copied};
ghost use Rattle.std.specs.List.{list_all};
ghost use Rattle.ts_model.specs.Roster.{of_table};
ghost use Rattle.ts_model.specs.Sound.{is_null_test, test_fits};

use crate::laws::word_law;
use ts_model::TableInfo;
use ts_schema::{Cmp, Seq, Test};

fn is_on_null(cmp: Cmp) -> bool
    ensures { result ≡ is_null_test cmp }
{
    match cmp {
        Cmp::Eq => false,
        Cmp::Ne => false,
        Cmp::Lt => false,
        Cmp::Le => false,
        Cmp::Gt => false,
        Cmp::Ge => false,
        Cmp::IsNull => true,
        Cmp::NotNull => true,
    }
}

fn test_is_fit(columns: usize, test: &Test) -> bool
    ensures { result ≡ test_fits columns test.now }
{
    word_law(test.num);
    let there = (test.col as usize) < columns;
    let plain = !is_on_null(test.cmp) || test.num == 0;
    there && plain
}

/// Whether these tests are on the first columns.
pub(crate) fn tests_are_fit(columns: usize, tests: &Seq<Test>) -> bool
    ensures { result ≡ list_all (test_fits columns) tests.now }
{
    tests.items().iter().all(|test| test_is_fit(columns, test))
}

/// Whether these tests are on columns of a hypertable.
pub(crate) fn tests_are_fit_in(tests: &Seq<Test>, info: Option<&TableInfo>) -> bool
    ensures { result ≡ of_table (λ def hyper. list_all (test_fits (length def.cols)) tests.now)
        (option_copied info.entry) }
{
    match info {
        None => false,
        Some(info) => info.hyper.is_some() && tests_are_fit(info.def.cols.len(), tests),
    }
}
