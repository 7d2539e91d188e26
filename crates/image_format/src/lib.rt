// The register image: which bytes stand for which places and circuits, and which are refused, with what number and where.
#![tactic(auto)]

ghost use Rattle.image_format.specs.Claims.{OneReading, RefusedNoImage, OneRefusal, ImageOrRefused};

// What is true of images: one reading, refused bytes are none, a refusal is one, and all bytes are an image or refused.
pub fn image_stands()
    ensures reading { OneReading }
    ensures refused { RefusedNoImage }
    ensures refusal { OneRefusal }
    ensures total { ImageOrRefused }
{}
