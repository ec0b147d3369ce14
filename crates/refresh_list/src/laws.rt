//! Laws that relate refreshes to histories. Each law is the clause of a function that does nothing.
ghost use Rattle.refresh_list.specs.Laws.{CutsStand, DoneAre, FinishesStand, ImagesStand, OthersStand, RefreshesBegin};

/// Before any event there is no refresh.
pub fn refreshes_begin()
    ensures { RefreshesBegin }
{}

/// A cut is one more refresh.
pub fn cuts_stand()
    ensures { CutsStand }
{}

/// A finish marks the refresh that it names.
pub fn finishes_stand()
    ensures { FinishesStand }
{}

/// Every other event leaves the refreshes unchanged.
pub fn others_stand()
    ensures { OthersStand }
{}

/// The refreshes of a valid image are those of the history that begins with it.
pub fn images_stand()
    ensures { ImagesStand }
{}

/// The finished ones of the refreshes of a history are its finished refreshes, in order of their cuts.
pub fn done_are()
    ensures { DoneAre }
{}
