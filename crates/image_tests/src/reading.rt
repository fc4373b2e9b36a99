// An image that was laid out by hand: 168 blocks of 512 bytes, the superblock in block 128, two groups at 129 and
// 160, the master directory in 130 and the root in 131. In the root stand the file `a`, the directory `d` with a
// file of one level of pointers and one of two, both with holes, and the hashed directory `h` with two leaves.
ghost use Rattle.std.specs.Prelude.{◌≡◌, ◌≤◌, ◌%◌, IfOk, length};

use file_tree::Content;
use image_journals::find_journals;
use image_reader::{Image, ImageFault, read_tree};
use replayed_trees::{Unread, read_replayed_image};
use std::alloc::Global;
use std::test::Fail;

// Bytes at a place.
type Part = (usize, &'static [u8]);

const BYTES: usize = 86_016;

const IMAGE: [Part; 151] = [
    (65_536, b"\x01\x16\x19p\x00\x00\x00\x01"),
    (
        65_555,
        b"d\x00\x00\x00\x00\x00\x00\x07\x09\x00\x00\x07l\x00\x00\x00\x00\x00\x00\x02\x00\x00\x00\x00\x09",
    ),
    (65_591, b"\x01\x00\x00\x00\x00\x00\x00\x00\x82"),
    (65_623, b"\x02\x00\x00\x00\x00\x00\x00\x00\x83"),
    (66_048, b"\x01\x16\x19p\x00\x00\x00\x02"),
    (66_067, b"\xc8"),
    (66_079, b"\x06\x00\x00\x00\x0c"),
    (66_103, b"\x82\x00\x00\x00\x1c\x00\x00\x00\x07"),
    (66_176, b"\xff\xd7_W]\x0f"),
    (66_560, b"\x01\x16\x19p\x00\x00\x00\x04"),
    (66_578, b"\x01\x90"),
    (66_591, b"\x01\x00\x00\x00\x00\x00\x00\x00\x82\x00\x00A\xed"),
    (
        66_615,
        b"\x03\x00\x00\x00\x00\x00\x00\x01\x18\x00\x00\x00\x00\x00\x00\x00\x01",
    ),
    (66_691, b"\x01"),
    (66_711, b"\x04"),
    (
        66_799,
        b"\x01\x00\x00\x00\x00\x00\x00\x00\x82\x0e\xd4\xe2B\x000\x00\x01\x00\x04",
    ),
    (66_832, b"."),
    (
        66_847,
        b"\x01\x00\x00\x00\x00\x00\x00\x00\x82\x96\x08\x16\x1c\x000\x00\x02\x00\x04",
    ),
    (66_880, b".."),
    (
        66_895,
        b"\x04\x00\x00\x00\x00\x00\x00\x00\x85^\xfc\x1d\x83\x000\x00\x06\x00\x04",
    ),
    (66_928, b"jindex"),
    (
        66_943,
        b"\x03\x00\x00\x00\x00\x00\x00\x00\x84\xb1y\x9du\x00\x88\x00\x06\x00\x08",
    ),
    (66_976, b"rindex"),
    (67_072, b"\x01\x16\x19p\x00\x00\x00\x04"),
    (67_090, b"\x01\x90"),
    (67_103, b"\x02\x00\x00\x00\x00\x00\x00\x00\x83\x00\x00A\xed"),
    (
        67_127,
        b"\x04\x00\x00\x00\x00\x00\x00\x01\x18\x00\x00\x00\x00\x00\x00\x00\x01",
    ),
    (67_203, b"\x01"),
    (67_223, b"\x05"),
    (
        67_311,
        b"\x02\x00\x00\x00\x00\x00\x00\x00\x83\x0e\xd4\xe2B\x000\x00\x01\x00\x04",
    ),
    (67_344, b"."),
    (
        67_359,
        b"\x02\x00\x00\x00\x00\x00\x00\x00\x83\x96\x08\x16\x1c\x000\x00\x02\x00\x04",
    ),
    (67_392, b".."),
    (
        67_407,
        b"\x06\x00\x00\x00\x00\x00\x00\x00\x89\xe8\xb7\xbeC\x000\x00\x01\x00\x08",
    ),
    (67_440, b"a"),
    (
        67_455,
        b"\x07\x00\x00\x00\x00\x00\x00\x00\x8a\x98\xddJ\xcc\x000\x00\x01\x00\x04",
    ),
    (67_488, b"d"),
    (
        67_503,
        b"\x0a\x00\x00\x00\x00\x00\x00\x00\x93\x91k\x06\xe7\x00X\x00\x01\x00\x04",
    ),
    (67_536, b"h"),
    (67_584, b"\x01\x16\x19p\x00\x00\x00\x04"),
    (67_602, b"\x01\x90"),
    (
        67_615,
        b"\x03\x00\x00\x00\x00\x00\x00\x00\x84\x00\x00\x81\x80",
    ),
    (
        67_639,
        b"\x01\x00\x00\x00\x00\x00\x00\x00\xc0\x00\x00\x00\x00\x00\x00\x00\x01",
    ),
    (67_714, b"\x02\x01"),
    (67_823, b"\x81\x00\x00\x00\x01"),
    (67_839, b"\x82\x00\x00\x00\x1c\x00\x00\x00\x07"),
    (67_919, b"\xa0\x00\x00\x00\x01"),
    (67_935, b"\xa1\x00\x00\x00\x04\x00\x00\x00\x01"),
    (68_096, b"\x01\x16\x19p\x00\x00\x00\x04"),
    (68_114, b"\x01\x90"),
    (68_127, b"\x04\x00\x00\x00\x00\x00\x00\x00\x85\x00\x00A\xed"),
    (
        68_151,
        b"\x02\x00\x00\x00\x00\x00\x00\x01\x18\x00\x00\x00\x00\x00\x00\x00\x01",
    ),
    (68_227, b"\x01"),
    (68_247, b"\x03"),
    (
        68_335,
        b"\x04\x00\x00\x00\x00\x00\x00\x00\x85\x0e\xd4\xe2B\x000\x00\x01\x00\x04",
    ),
    (68_368, b"."),
    (
        68_383,
        b"\x01\x00\x00\x00\x00\x00\x00\x00\x82\x96\x08\x16\x1c\x000\x00\x02\x00\x04",
    ),
    (68_416, b".."),
    (
        68_431,
        b"\x05\x00\x00\x00\x00\x00\x00\x00\x86\xfcwE\xeb\x00\xb8\x00\x08\x00\x08",
    ),
    (68_464, b"journal0"),
    (68_608, b"\x01\x16\x19p\x00\x00\x00\x04"),
    (68_626, b"\x01\x90"),
    (
        68_639,
        b"\x05\x00\x00\x00\x00\x00\x00\x00\x86\x00\x00\x81\x80",
    ),
    (68_663, b"\x01\x00\x00\x00\x00\x00\x00\x04"),
    (68_679, b"\x03"),
    (68_738, b"\x02\x01\x00\x00\x00\x00\x00\x00\x00\x01"),
    (68_847, b"\x87\x00\x00\x00\x00\x00\x00\x00\x88"),
    (69_120, b"\x01\x16\x19p\x00\x00\x00\x08"),
    (69_138, b"\x03 "),
    (69_151, b"\x01\x00\x00\x00\x01"),
    (69_164, b"\xac/\xff\x8d"),
    (70_144, b"\x01\x16\x19p\x00\x00\x00\x04"),
    (70_162, b"\x01\x90"),
    (
        70_175,
        b"\x06\x00\x00\x00\x00\x00\x00\x00\x89\x00\x00\x81\xa4",
    ),
    (
        70_199,
        b"\x01\x00\x00\x00\x00\x00\x00\x00\x05\x00\x00\x00\x00\x00\x00\x00\x01",
    ),
    (70_275, b"\x01"),
    (70_376, b"hello"),
    (70_656, b"\x01\x16\x19p\x00\x00\x00\x04"),
    (70_674, b"\x01\x90"),
    (70_687, b"\x07\x00\x00\x00\x00\x00\x00\x00\x8a\x00\x00A\xed"),
    (
        70_711,
        b"\x02\x00\x00\x00\x00\x00\x00\x01\x18\x00\x00\x00\x00\x00\x00\x00\x01",
    ),
    (70_787, b"\x01"),
    (70_807, b"\x04"),
    (
        70_895,
        b"\x07\x00\x00\x00\x00\x00\x00\x00\x8a\x0e\xd4\xe2B\x000\x00\x01\x00\x04",
    ),
    (70_928, b"."),
    (
        70_943,
        b"\x02\x00\x00\x00\x00\x00\x00\x00\x83\x96\x08\x16\x1c\x000\x00\x02\x00\x04",
    ),
    (70_976, b".."),
    (
        70_991,
        b"\x08\x00\x00\x00\x00\x00\x00\x00\x8bq\xbe\xef\xf9\x000\x00\x01\x00\x08",
    ),
    (71_024, b"b"),
    (
        71_039,
        b"\x09\x00\x00\x00\x00\x00\x00\x00\x8e\x06\xb9\xdfo\x00\x88\x00\x01\x00\x08",
    ),
    (71_072, b"c"),
    (71_168, b"\x01\x16\x19p\x00\x00\x00\x04"),
    (71_186, b"\x01\x90"),
    (
        71_199,
        b"\x08\x00\x00\x00\x00\x00\x00\x00\x8b\x00\x00\x81\xa4",
    ),
    (
        71_223,
        b"\x01\x00\x00\x00\x00\x00\x00\x04\x03\x00\x00\x00\x00\x00\x00\x00\x03",
    ),
    (71_299, b"\x01\x00\x00\x00\x00\x00\x00\x00\x01"),
    (71_407, b"\x8c"),
    (71_423, b"\x8d"),
    (71_680, b"first"),
    (72_192, b"end"),
    (72_704, b"\x01\x16\x19p\x00\x00\x00\x04"),
    (72_722, b"\x01\x90"),
    (
        72_735,
        b"\x09\x00\x00\x00\x00\x00\x00\x00\x8e\x00\x00\x81\xa4",
    ),
    (72_759, b"\x01\x00\x00\x00\x00\x00\x00\xc8"),
    (72_775, b"\x05"),
    (72_835, b"\x01\x00\x00\x00\x00\x00\x00\x00\x02"),
    (72_943, b"\x8f\x00\x00\x00\x00\x00\x00\x00\x90"),
    (73_216, b"\x01\x16\x19p\x00\x00\x00\x05"),
    (73_234, b"\x01\xf4"),
    (73_247, b"\x91"),
    (73_728, b"\x01\x16\x19p\x00\x00\x00\x05"),
    (73_746, b"\x01\xf4"),
    (74_063, b"\x92"),
    (74_240, b"low"),
    (74_752, b"high"),
    (75_264, b"\x01\x16\x19p\x00\x00\x00\x04"),
    (75_282, b"\x01\x90"),
    (75_295, b"\x0a\x00\x00\x00\x00\x00\x00\x00\x93\x00\x00A\xed"),
    (75_319, b"\x02\x00\x00\x00\x00\x00\x00\x01"),
    (75_335, b"\x03"),
    (75_395, b"\x03"),
    (75_411, b"\x05\x00\x00\x00\x04"),
    (
        75_503,
        b"\x94\x00\x00\x00\x00\x00\x00\x00\x94\x00\x00\x00\x00\x00\x00\x00\x94\x00\x00\x00\x00\x00\x00\x00\x94\x00\x00\x00\x00\x00\x00\x00\x94\x00\x00\x00\x00\x00\x00\x00\x94\x00\x00\x00\x00\x00\x00\x00\x94\x00\x00\x00\x00\x00\x00\x00\x94\x00\x00\x00\x00\x00\x00\x00\x94\x00\x00\x00\x00\x00\x00\x00\x94\x00\x00\x00\x00\x00\x00\x00\x94\x00\x00\x00\x00\x00\x00\x00\x94\x00\x00\x00\x00\x00\x00\x00\x94\x00\x00\x00\x00\x00\x00\x00\x94\x00\x00\x00\x00\x00\x00\x00\x94\x00\x00\x00\x00\x00\x00\x00\x94\x00\x00\x00\x00\x00\x00\x00\x94\x00\x00\x00\x00\x00\x00\x00\x94\x00\x00\x00\x00\x00\x00\x00\x94\x00\x00\x00\x00\x00\x00\x00\x94\x00\x00\x00\x00\x00\x00\x00\x94\x00\x00\x00\x00\x00\x00\x00\x94\x00\x00\x00\x00\x00\x00\x00\x94\x00\x00\x00\x00\x00\x00\x00\x94\x00\x00\x00\x00\x00\x00\x00\x94\x00\x00\x00\x00\x00\x00\x00\x94\x00\x00\x00\x00\x00\x00\x00\x94\x00\x00\x00\x00\x00\x00\x00\x94\x00\x00\x00\x00\x00\x00\x00\x94\x00\x00\x00\x00\x00\x00\x00\x94\x00\x00\x00\x00\x00\x00\x00\x94\x00\x00\x00\x00\x00\x00\x00\x94",
    ),
    (75_776, b"\x01\x16\x19p\x00\x00\x00\x06"),
    (
        75_794,
        b"\x02X\x00\x00\x00\x00\x00\x00\x00\x03\x00\x00\x04\xb0\x00\x00\x00\x00\x00\x00\x00\x95",
    ),
    (
        75_887,
        b"\x0a\x00\x00\x00\x00\x00\x00\x00\x93\x0e\xd4\xe2B\x000\x00\x01\x00\x04",
    ),
    (75_920, b"."),
    (
        75_935,
        b"\x02\x00\x00\x00\x00\x00\x00\x00\x83\x96\x08\x16\x1c\x000\x00\x02\x00\x04",
    ),
    (75_968, b".."),
    (
        75_983,
        b"\x0b\x00\x00\x00\x00\x00\x00\x00\x96\x8c\xdc\x16\x83\x018\x00\x01\x00\x08",
    ),
    (76_016, b"x"),
    (76_288, b"\x01\x16\x19p\x00\x00\x00\x06"),
    (
        76_306,
        b"\x02X\x00\x00\x00\x00\x00\x00\x00\x01\x00\x00\x04\xb0",
    ),
    (
        76_399,
        b"\x0c\x00\x00\x00\x00\x00\x00\x00\x97\xfb\xdb&\x15\x01\x98\x00\x01\x00\x08",
    ),
    (76_432, b"y"),
    (76_800, b"\x01\x16\x19p\x00\x00\x00\x04"),
    (76_818, b"\x01\x90"),
    (
        76_831,
        b"\x0b\x00\x00\x00\x00\x00\x00\x00\x96\x00\x00\x81\xa4",
    ),
    (
        76_855,
        b"\x01\x00\x00\x00\x00\x00\x00\x00\x01\x00\x00\x00\x00\x00\x00\x00\x01",
    ),
    (76_931, b"\x01"),
    (77_032, b"1"),
    (77_312, b"\x01\x16\x19p\x00\x00\x00\x04"),
    (77_330, b"\x01\x90"),
    (
        77_343,
        b"\x0c\x00\x00\x00\x00\x00\x00\x00\x97\x00\x00\x81\xa4",
    ),
    (
        77_367,
        b"\x01\x00\x00\x00\x00\x00\x00\x00\x01\x00\x00\x00\x00\x00\x00\x00\x01",
    ),
    (77_443, b"\x01"),
    (77_544, b"2"),
    (81_920, b"\x01\x16\x19p\x00\x00\x00\x02"),
    (81_939, b"\xc8"),
    (81_951, b"\x04"),
    (81_975, b"\xa1\x00\x00\x00\x04\x00\x00\x00\x01"),
];

// A journal of four places instead, outside of the profile: behind the header there is a transaction of one block, the root, with the name `b` where the image has `a`.
const DIRTY: [Part; 15] = [
    (65_563, b"\x08"),
    (66_079, b"\x04"),
    (66_181, b"_"),
    (68_670, b"\x08"),
    (68_679, b"\x05"),
    (68_863, b"\x98\x00\x00\x00\x00\x00\x00\x00\x99"),
    (69_632, b"\x01\x16\x19p\x00\x00\x00\x09"),
    (69_650, b"\x03\x84"),
    (69_658, b"\x01,\x00\x00\x00\x02\x00\x00\x00\x01"),
    (69_711, b"\x83"),
    (78_168, b"q\xbe\xef\xf9"),
    (78_192, b"b"),
    (78_336, b"\x01\x16\x19p\x00\x00\x00\x08"),
    (78_354, b"\x03 "),
    (
        78_367,
        b"\x02\x00\x00\x00\x00\x00\x00\x00\x01\x00\x00\x00\x03r\xf8\x13\x1f",
    ),
];

// A journal whose two places stand under a block of pointers, where the second one is behind the device's end.
const PAST_END: [Part; 7] = [
    (66_177, b"\xc7"),
    (66_181, b"\x1f"),
    (68_747, b"\x02"),
    (68_847, b"\x98\x00\x00\x00\x00\x00\x00\x00\x00"),
    (77_824, b"\x01\x16\x19p\x00\x00\x00\x05"),
    (77_842, b"\x01\xf4"),
    (77_855, b"\x87\x00\x00\x00\x00\x00\x00\x00\xa8"),
];

const BROKEN: [(&[Part], u64, u16); 33] = [
    (&[(65_539, b"q")], 128, 1),
    (&[(66_055, b"\x03")], 129, 1),
    (&[(70_663, b"\x05")], 138, 1),
    (&[(73_223, b"\x04")], 143, 1),
    (&[(75_783, b"\x04")], 148, 1),
    (&[(71_407, b"\xf0")], 139, 2),
    (&[(71_407, b"\xa0")], 139, 2),
    (&[(71_407, b"\x8d")], 141, 3),
    (&[(81_975, b"\xa2")], 160, 4),
    (&[(66_181, b"_")], 152, 5),
    (&[(66_079, b"\x07")], 129, 6),
    (&[(70_183, b"\x8a")], 137, 7),
    (&[(70_184, b"\x00\x00\x11\xa4")], 137, 8),
    (&[(70_283, b"\x0b")], 137, 8),
    (&[(70_206, b"\x01\x19")], 137, 8),
    (&[(71_230, b"\x02\x00")], 139, 8),
    (&[(68_847, b"\x00"), (68_679, b"\x02")], 134, 8),
    (&[(71_024, b"/")], 138, 9),
    (&[(70_904, b"\x00")], 138, 9),
    (&[(70_909, b"\x00")], 138, 9),
    (&[(75_895, b"\x8a")], 147, 10),
    // One name in two leaves, which leads to two files, and then twice to one.
    (&[(76_408, b"\x8c\xdc\x16\x83"), (76_432, b"x")], 149, 10),
    (
        &[
            (76_399, b"\x0b"),
            (76_407, b"\x96\x8c\xdc\x16\x83"),
            (76_432, b"x"),
        ],
        149,
        10,
    ),
    (&[(71_009, b"\x04")], 138, 11),
    (&[(70_199, b"\x02")], 137, 12),
    (&[(70_807, b"\x05")], 138, 12),
    (&[(75_411, b"\x04")], 147, 13),
    (&[(75_803, b"\x02")], 148, 14),
    (&[(76_327, b"\x94")], 148, 15),
    (&[(69_164, b"\x00\x00\x00\x00")], 134, 16),
    (&[(67_919, b"\xa2")], 132, 18),
    // A list of groups of 96 times 2^40 bytes, without a block.
    (
        &[
            (67_640, b"\x00\x00\x60\x00\x00\x00\x00\x00"),
            (67_723, b"\x0a"),
            (67_823, b"\x00\x00\x00\x00\x00"),
            (67_839, b"\x00\x00\x00\x00\x00\x00\x00\x00\x00"),
            (67_919, b"\x00\x00\x00\x00\x00"),
            (67_935, b"\x00\x00\x00\x00\x00\x00\x00\x00\x00"),
        ],
        132,
        18,
    ),
    (&[(70_215, b"\x02")], 137, 19),
];

fn lay(bytes: &mut [u8], parts: &[Part]) {
    for (at, part) in parts {
        if *at <= bytes.len() && part.len() <= bytes.len() - *at {
            bytes[*at..*at + part.len()].copy_from_slice(part);
        }
    }
}

fn bytes_of(alloc: Global, later: &[Part]) -> Result<Vec<u8>, Fail>
    ensures { IfOk result (λ bytes. length bytes.items ≡ 86016) }
{
    let mut bytes = vec![in alloc; 0u8; BYTES]?;
    lay(&mut bytes, &IMAGE);
    lay(&mut bytes, later);
    Ok(bytes)
}

// The same with the journal that isn't clean.
fn dirty_bytes_of(alloc: Global, later: &[Part]) -> Result<Vec<u8>, Fail>
    ensures { IfOk result (λ bytes. length bytes.items ≡ 86016) }
{
    let mut bytes = bytes_of(alloc, &[])?;
    let mut root = [0u8; 512];
    root.copy_from_slice(&bytes[67_072..67_584]);
    bytes[77_824..78_336].copy_from_slice(&root);
    lay(&mut bytes, &DIRTY);
    lay(&mut bytes, later);
    Ok(bytes)
}

fn image(alloc: Global, later: &[Part]) -> Result<Image, Fail>
    ensures size { IfOk result (λ image. image.block_size ≡ 512) }
    ensures bytes { IfOk result (λ image. length image.bytes ≡ 86016) }
{
    Ok(Image {
        block_size: 512,
        bytes: Content::new(bytes_of(alloc, later)?),
    })
}

#[test]
fn a_whole_image_is_read(rt: HostRuntime) -> Result<(), Fail> {
    let image = image(rt.alloc(), &[])?;
    let tree = match read_tree(rt.alloc(), &image) {
        Ok(tree) => tree,
        Err(fault) => {
            println!(rt; "{fault:?}")?;
            return Err(Fail::from("no tree"));
        }
    };
    assert!(rt; !tree.lacks(b"a"));
    assert!(rt; !tree.lacks(b"d"));
    assert!(rt; !tree.lacks(b"h"));
    assert!(rt; tree.lacks(b"b"));
    Ok(())
}

#[test]
fn a_broken_rule_is_named_with_its_block(rt: HostRuntime) -> Result<(), Fail> {
    for (later, block, rule) in BROKEN {
        let image = image(rt.alloc(), later)?;
        let fault = read_tree(rt.alloc(), &image).err();
        assert_eq!(rt; fault, Some(ImageFault::Damaged { block, rule }));
    }
    Ok(())
}

// No command finds them: the journal has two places, and the superblock here has another format than mounting takes.
#[test]
fn journals_are_found_outside_of_the_profile(rt: HostRuntime) -> Result<(), Fail> {
    let image = image(rt.alloc(), &[(65_563, b"\x08")])?;
    let Ok(journals) = find_journals(rt.alloc(), image.block_size, image.bytes.bytes()) else {
        return Err(Fail::from("not found"));
    };
    assert_eq!(rt; journals.len(), 1);
    let Some(journal) = journals.first() else {
        return Err(Fail::from("no journal"));
    };
    assert_eq!(rt; journal.dinode, 134);
    assert_eq!(rt; journal.blocks.len(), 2);
    assert_eq!(rt; journal.blocks.first(), Some(&135));
    assert_eq!(rt; journal.blocks.last(), Some(&136));
    Ok(())
}

// The same image, its journal replayed, which is clean.
#[test]
fn an_image_outside_of_the_profile_is_read(rt: HostRuntime) -> Result<(), Fail> {
    let bytes = bytes_of(rt.alloc(), &[(65_563, b"\x08")])?;
    let tree = match read_replayed_image(rt.alloc(), 512, bytes) {
        Ok(tree) => tree,
        Err(fault) => {
            println!(rt; "{fault:?}")?;
            return Err(Fail::from("no tree"));
        }
    };
    assert!(rt; !tree.lacks(b"a"));
    assert!(rt; !tree.lacks(b"h"));
    assert!(rt; tree.lacks(b"b"));
    Ok(())
}

// What its journal says is in place, though none of it is at home.
#[test]
fn a_dirty_journal_is_replayed_outside_of_the_profile(rt: HostRuntime) -> Result<(), Fail> {
    let bytes = dirty_bytes_of(rt.alloc(), &[])?;
    let Ok(tree) = read_replayed_image(rt.alloc(), 512, bytes) else {
        return Err(Fail::from("no tree"));
    };
    assert!(rt; !tree.lacks(b"b"));
    assert!(rt; tree.lacks(b"a"));
    assert!(rt; !tree.lacks(b"h"));
    Ok(())
}

// Two links to a file, which the replayed image has; and a journal without a header.
#[test]
fn what_is_broken_outside_of_the_profile_is_told(rt: HostRuntime) -> Result<(), Fail> {
    let links = bytes_of(rt.alloc(), &[(70_199, b"\x02")])?;
    let fault = read_replayed_image(rt.alloc(), 512, links).err();
    assert_eq!(rt;
        fault,
        Some(Unread::Damaged {
            block: 137,
            rule: 12
        })
    );
    let header = bytes_of(rt.alloc(), &[(69_164, b"\x00\x00\x00\x00")])?;
    let fault = read_replayed_image(rt.alloc(), 512, header).err();
    assert_eq!(rt;
        fault,
        Some(Unread::Damaged {
            block: 134,
            rule: 16
        })
    );
    Ok(())
}

// A descriptor without its magic number, at the second place.
#[test]
fn a_bad_chunk_outside_of_the_profile_is_told(rt: HostRuntime) -> Result<(), Fail> {
    let chunk = dirty_bytes_of(rt.alloc(), &[(69_635, b"q")])?;
    let fault = read_replayed_image(rt.alloc(), 512, chunk).err();
    assert_eq!(rt;
        fault,
        Some(Unread::Damaged {
            block: 136,
            rule: 17
        })
    );
    Ok(())
}

// A place of the journal behind the device's end is told at the block of pointers that has its number.
#[test]
fn a_place_past_the_end_is_told_where_it_stands(rt: HostRuntime) -> Result<(), Fail> {
    let past = bytes_of(rt.alloc(), &PAST_END)?;
    let fault = read_replayed_image(rt.alloc(), 512, past).err();
    assert_eq!(rt;
        fault,
        Some(Unread::DamagedAsItLies {
            block: 152,
            rule: 2
        })
    );
    Ok(())
}
