//! Laws of checkpoint images. Each law is the clause of a function that does nothing.
ghost use Rattle.image_laws.specs.Alike.{AlikeAnswers, AlikeStays};
ghost use Rattle.image_laws.specs.Ends.{HistoriesEnd};
ghost use Rattle.image_laws.specs.Images.{CheckpointsKeep, ImagesAreAlike, ImagesAreValid, OneImage};

/// A history that is alike to one that begins with an image stays alike to it under the same events. The same
/// events are allowed after both, except for a finish with a snapshot below the image.
pub fn alike_histories_stay_alike()
    ensures { AlikeStays }
{}

/// Alike histories have the same answers and windows, and each call does the same at both.
pub fn alike_histories_answer_alike()
    ensures { AlikeAnswers }
{}

/// An allowed history and its image are alike.
pub fn images_are_alike()
    ensures { ImagesAreAlike }
{}

/// Queries after the image of a history have the same answers as after the whole history.
pub fn checkpoints_keep_answers()
    ensures { CheckpointsKeep }
{}

/// The image of an allowed history is valid, if each group in a bucket touched after its last refresh has
/// fewer than 2^62 rows.
pub fn images_are_valid()
    ensures { ImagesAreValid }
{}

/// A history has at most one image.
pub fn a_history_has_one_image()
    ensures { OneImage }
{}

/// An allowed history reaches at most position 2^62, wherever it begins. A call creates its event below that
/// position, and is refused as `E30` at it.
pub fn histories_end()
    ensures { HistoriesEnd }
{}
