// Conversions of old benches over their images.
#![tactic(auto)]

ghost use Rattle.std.specs.Prelude.{◌≡◌, length};
ghost use Rattle.imagecalls.specs.Calls.{bench_v2_shown, bench_v3_shown, first_image_call, second_image_call, old_image_call};

use bench::Benched;
use image::{
    LENGTH as IMAGE_LENGTH, LENGTH_V1 as IMAGE_V1_LENGTH, LENGTH_V2 as IMAGE_V2_LENGTH,
    LENGTH_V3 as IMAGE_V3_LENGTH,
};
use imagecalls::OTHER_LENGTH;
use oldbenches::{BenchV2, BenchV3};

// Writes the image of the bench that the conversion into the second kind gave, and gives the number of its answer.
fn show_v2(done: Benched<BenchV2>, bytes: &mut [u8]) -> u32
    requires { length bytes.old ≡ 521 }
    ensures { (result, bytes.new) ≡ bench_v2_shown done }
{
    image::write_v2(done.bench, bytes);
    imagecalls::answer_number(done.answer)
}

// Writes the image of the bench that the conversion into the third kind gave, and gives the number of its answer. It differs from `show_v2` in the function it calls: one that is
// handed that function is no shorter.
fn show_v3(done: Benched<BenchV3>, bytes: &mut [u8]) -> u32
    requires { length bytes.old ≡ 5137 }
    ensures { (result, bytes.new) ≡ bench_v3_shown done }
{
    image::write_v3(done.bench, bytes);
    imagecalls::answer_number(done.answer)
}

// The conversion of a bench of the first kind.
fn convert_first(old: &[u8], bytes: &mut [u8]) -> u32
    requires { length old.now ≡ 517 }
    ensures { (result, bytes.new) ≡ first_image_call old.now bytes.old }
{
    if bytes.len() != IMAGE_V2_LENGTH {
        return OTHER_LENGTH;
    }
    let before = image::read_v1(old);
    let done = oldbenches::convert_v1(before);
    show_v2(done, bytes)
}

// The conversion of a bench of the second kind.
fn convert_second(old: &[u8], bytes: &mut [u8]) -> u32
    requires { length old.now ≡ 521 }
    ensures { (result, bytes.new) ≡ second_image_call old.now bytes.old }
{
    if bytes.len() != IMAGE_V3_LENGTH {
        return OTHER_LENGTH;
    }
    let before = image::read_v2(old);
    let done = oldbenches::convert_v2(before);
    show_v3(done, bytes)
}

// The conversion of an old bench, whose image's length tells its kind, over that and an image of the next kind: the reason, or 255 where either has
// another length.
pub fn convert(old: &[u8], bytes: &mut [u8]) -> u32
    ensures { (result, bytes.new) ≡ old_image_call old.now bytes.old }
{
    if old.len() == IMAGE_V1_LENGTH {
        return convert_first(old, bytes);
    }
    if old.len() == IMAGE_V2_LENGTH {
        return convert_second(old, bytes);
    }
    if old.len() != IMAGE_V3_LENGTH {
        return OTHER_LENGTH;
    }
    if bytes.len() != IMAGE_LENGTH {
        return OTHER_LENGTH;
    }
    let before = image::read_v3(old);
    let done = conversion::convert_v3(before);
    imagecalls::show(done, bytes)
}
