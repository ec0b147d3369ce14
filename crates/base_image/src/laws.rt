//! Laws of the bytes of images. Each law is the clause of a function that does nothing.
ghost use Rattle.base_image.specs.Laws.{BytesAreCounted};

/// An image has as many bytes as `image_bytes` counts.
pub fn images_have_their_bytes()
    ensures { BytesAreCounted }
{}
