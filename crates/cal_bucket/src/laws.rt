//! Laws of the calendar. Each law is the clause of a function that does nothing.
ghost use Rattle.cal_bucket.specs.Laws.{DaysHaveAWidth, EachHasAMonth, EachHasOneBucket, EachHasOneMonth, FittingRowsAreShown, FourHundredYears};
ghost use Rattle.cal_bucket.specs.Laws.{January2000, MonthBucketsAreGreatest, MonthsFollow, MonthsStartWithFirstDates};
ghost use Rattle.cal_bucket.specs.Laws.{ColumnsShowRows, NamesAreOfBuckets, WeeksHaveAWidth, WeeksStartOnMondays};

/// Months follow one another, in both directions from January 2000.
pub fn months_follow()
    ensures first { January2000 }
    ensures next { MonthsFollow }
{}

/// Months start with the first dates of `jiff`, in all its years.
pub fn months_start_with_first_dates()
    ensures { MonthsStartWithFirstDates }
{}

/// Each number of seconds lies in exactly one month.
pub fn months_part_the_times()
    ensures some { EachHasAMonth }
    ensures one { EachHasOneMonth }
{}

/// The calendar repeats every 4,800 months, which are 400 years.
pub fn four_hundred_years_are_alike()
    ensures { FourHundredYears }
{}

/// A time has one bucket.
pub fn each_has_one_bucket()
    ensures { EachHasOneBucket }
{}

/// The name of a bucket of months is its start: the greatest possible one at or below the time.
pub fn month_buckets_are_greatest()
    ensures { MonthBucketsAreGreatest }
{}

/// Buckets of days and of weeks have a width, and those of weeks start on Mondays.
pub fn weeks_start_on_mondays()
    ensures days { DaysHaveAWidth }
    ensures weeks { WeeksHaveAWidth }
    ensures mondays { WeeksStartOnMondays }
{}

/// The name that answers use for the bucket of a time is the name of that bucket.
pub fn names_are_of_buckets()
    ensures { NamesAreOfBuckets }
{}

/// A plan shows the same over the columns of rows as over the rows.
pub fn columns_show_rows()
    ensures { ColumnsShowRows }
{}

/// `cal_answer` accepts the rows that fit a hypertable.
pub fn fitting_rows_are_shown()
    ensures { FittingRowsAreShown }
{}
