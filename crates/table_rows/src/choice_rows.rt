//! That the numbers are those of the published generator, and that calls can succeed.

use chooser::{Chooser, ListChooser, PcgChooser};
use std::test::Fail;

/// Seeds, and the first 16 words of PCG XSL RR 128/64 seeded by each with `rand`'s `seed_from_u64`.
/// They come from a program written apart from the published constants, which was tried on PCG's
/// reference output for state 42 and stream 54.
const WORDS: [(u64, [u64; 16]); 4] = [
    (
        0,
        [
            2_354_861_276_966_075_475,
            6_411_218_084_291_373_563,
            13_092_586_260_176_364_081,
            718_076_624_554_797_018,
            15_795_103_776_161_667_678,
            2_998_643_491_086_499_979,
            3_673_039_548_900_617_805,
            9_334_786_029_913_437_385,
            15_150_774_557_664_868_202,
            16_872_992_383_828_494_405,
            8_045_369_285_252_223_435,
            435_477_246_705_504_758,
            11_763_950_127_722_744_198,
            3_527_297_933_166_014_857,
            10_490_611_614_896_091_798,
            183_634_337_518_003_151,
        ],
    ),
    (
        1,
        [
            15_492_934_433_077_865_799,
            319_104_231_195_455_319,
            2_101_115_697_694_094_752,
            18_133_442_382_907_303_891,
            16_388_000_393_952_239_856,
            8_777_885_780_164_965_128,
            3_466_651_404_788_888_437,
            7_162_097_317_478_483_825,
            10_168_005_516_518_245_879,
            9_679_617_541_616_386_426,
            862_600_469_476_059_697,
            15_848_356_266_032_593_060,
            13_070_086_966_951_297_188,
            1_782_305_450_094_475_968,
            7_157_745_845_186_982_144,
            4_572_948_601_867_921_670,
        ],
    ),
    (
        42,
        [
            4_178_418_447_715_145_737,
            4_410_739_922_618_931_473,
            14_034_899_209_665_866_285,
            9_736_923_071_240_364_268,
            17_902_128_262_962_705_724,
            6_926_063_993_282_384_794,
            3_466_296_345_687_787_228,
            9_678_225_634_339_774_440,
            14_805_146_422_741_451_713,
            6_841_102_829_943_863_755,
            4_359_911_546_386_635_779,
            17_130_321_491_458_953_292,
            8_535_325_966_778_734_483,
            8_121_316_676_154_024_272,
            5_766_259_281_776_289_430,
            1_647_681_208_787_125_256,
        ],
    ),
    (
        18_446_744_073_709_551_615,
        [
            15_532_479_649_269_844_593,
            13_660_700_689_182_349_338,
            17_697_472_519_036_329_761,
            1_087_246_117_485_832_238,
            18_171_713_944_888_337_757,
            7_592_087_543_346_815_006,
            1_439_889_208_614_763_828,
            55_007_825_308_862_245,
            16_272_134_724_970_192_308,
            13_868_482_428_020_858_938,
            11_387_328_330_885_139_926,
            10_474_159_146_458_363_702,
            81_828_788_874_385_333,
            14_570_646_776_964_957_560,
            15_868_578_523_078_197_122,
            8_509_211_696_669_359_680,
        ],
    ),
];

#[test]
fn the_generator_gives_the_published_words(rt: HostRuntime) -> Result<(), Fail> {
    let mut chooser = PcgChooser::new(rt.alloc());
    for (seed, words) in WORDS {
        chooser.start(seed);
        for word in words {
            assert_eq!(rt; chooser.next()?, word, "from {seed}");
        }
        assert!(rt; chooser.given() == words.as_slice());
    }
    Ok(())
}

#[test]
fn a_list_is_given_in_order_and_then_zeros_and_again_from_the_first(
    rt: HostRuntime,
) -> Result<(), Fail> {
    let mut chooser = ListChooser::new(rt.alloc(), [7, 0, 9].to_vec(rt.alloc())?);
    for number in [0, 1] {
        chooser.start(number);
        for (k, want) in [7, 0, 9, 0, 0].iter().enumerate() {
            assert_eq!(rt; chooser.next()?, *want, "place {k}");
        }
    }
    assert!(rt; chooser.given() == [7, 0, 9, 0, 0].as_slice());
    Ok(())
}

#[test]
fn a_list_of_no_numbers_gives_zeros(rt: HostRuntime) -> Result<(), Fail> {
    let mut chooser = ListChooser::new(rt.alloc(), Vec::new(rt.alloc()));
    chooser.start(0);
    assert_eq!(rt; first_two(&mut chooser)?, (0, 0));
    Ok(())
}

#[test]
fn a_start_with_the_same_number_gives_the_same_words(rt: HostRuntime) -> Result<(), Fail> {
    let mut chooser = PcgChooser::new(rt.alloc());
    chooser.start(5);
    let before = first_two(&mut chooser)?;
    chooser.start(5);
    assert_eq!(rt; first_two(&mut chooser)?, before);
    Ok(())
}

/// Through the bound, as the layers above call it.
fn first_two<C: Chooser>(chooser: &mut C) -> Result<(u64, u64), Fail> {
    Ok((chooser.next()?, chooser.next()?))
}
