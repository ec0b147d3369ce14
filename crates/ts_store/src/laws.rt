//! Laws of what journals contain, and of images, as clauses of functions that do nothing.
ghost use Rattle.ts_store.specs.Checkpoints.{ImagesHaveOneLength};
ghost use Rattle.ts_store.specs.Laws.{StandsOnce, StandsOrDamaged, DamagedOnce, EachIsJudged};

use image_laws::laws::a_history_has_one_image;

/// Each journal contains one history or is damaged at one place, and never both.
pub fn journals_stand_for_one_history()
    ensures one { StandsOnce }
    ensures apart { StandsOrDamaged }
    ensures one_damage { DamagedOnce }
    ensures judged { EachIsJudged }
{}

/// The images of a history have one length.
pub fn images_have_one_length()
    ensures { ImagesHaveOneLength }
{
    a_history_has_one_image();
}
