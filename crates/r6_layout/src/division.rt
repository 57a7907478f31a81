//! Division by a small number, by a multiplication.

ghost use Rattle.std.specs.Prelude.{◌≡◌, ◌^◌, ◌<◌, ◌≤◌};
ghost use Rattle.r6_layout.specs.Division.{IsDividedBy, inverse_of};

/// What a number is divided into.
#[derive(Clone, Copy)]
pub(crate) struct Divided {
    pub(crate) quotient: u64,
    pub(crate) remainder: u64,
}

/// By divisor, from 1: 2^36 - 1, divided by it.
#[rattlefmt::skip]
static INVERSES: [u64; 129] = [
    0, 68_719_476_735, 34_359_738_367, 22_906_492_245, 17_179_869_183, 13_743_895_347,
    11_453_246_122, 9_817_068_105, 8_589_934_591, 7_635_497_415, 6_871_947_673, 6_247_225_157,
    5_726_623_061, 5_286_113_595, 4_908_534_052, 4_581_298_449, 4_294_967_295, 4_042_322_160,
    3_817_748_707, 3_616_814_565, 3_435_973_836, 3_272_356_035, 3_123_612_578, 2_987_803_336,
    2_863_311_530, 2_748_779_069, 2_643_056_797, 2_545_165_805, 2_454_267_026, 2_369_637_128,
    2_290_649_224, 2_216_757_314, 2_147_483_647, 2_082_408_385, 2_021_161_080, 1_963_413_621,
    1_908_874_353, 1_857_283_155, 1_808_407_282, 1_762_037_865, 1_717_986_918, 1_676_084_798,
    1_636_178_017, 1_598_127_365, 1_561_806_289, 1_527_099_483, 1_493_901_668, 1_462_116_526,
    1_431_655_765, 1_402_438_300, 1_374_389_534, 1_347_440_720, 1_321_528_398, 1_296_593_900,
    1_272_582_902, 1_249_445_031, 1_227_133_513, 1_205_604_855, 1_184_818_564, 1_164_736_893,
    1_145_324_612, 1_126_548_798, 1_108_378_657, 1_090_785_345, 1_073_741_823, 1_057_222_719,
    1_041_204_192, 1_025_663_831, 1_010_580_540, 995_934_445, 981_706_810, 967_879_954, 954_437_176,
    941_362_695, 928_641_577, 916_259_689, 904_203_641, 892_460_736, 881_018_932, 869_866_794,
    858_993_459, 848_388_601, 838_042_399, 827_945_502, 818_089_008, 808_464_432, 799_063_682,
    789_879_042, 780_903_144, 772_128_952, 763_549_741, 755_159_085, 746_950_834, 738_919_104,
    731_058_263, 723_362_913, 715_827_882, 708_448_213, 701_219_150, 694_136_128, 687_194_767,
    680_390_858, 673_720_360, 667_179_385, 660_764_199, 654_471_207, 648_296_950, 642_238_100,
    636_291_451, 630_453_915, 624_722_515, 619_094_385, 613_566_756, 608_136_962, 602_802_427,
    597_560_667, 592_409_282, 587_345_955, 582_368_446, 577_474_594, 572_662_306, 567_929_559,
    563_274_399, 558_694_932, 554_189_328, 549_755_813, 545_392_672, 541_098_242, 536_870_911,
];

// The number by which others are multiplied, and then divided by 2^36.
fn inverse(divisor: u64) -> u64
    requires some { 1 ≤ divisor }
    requires most { divisor ≤ 128 }
    ensures { result ≡ inverse_of divisor }
{
    INVERSES[divisor as usize]
}

/// A number divided by one that is at most 128. A processor takes 20 to 40 cycles for a division, and 4 for a
/// multiplication (T. Granlund and P. Montgomery, "Division by Invariant Integers using Multiplication", 1994).
pub(crate) fn divide(number: u64, divisor: u64) -> Divided
    requires few { number < 2 ^ 29 }
    requires some { 1 ≤ divisor }
    requires most { divisor ≤ 128 }
    ensures { IsDividedBy number divisor result }
{
    if divisor == 1 {
        return Divided {
            quotient: number,
            remainder: 0,
        };
    }
    let quotient = ((number + 1) * inverse(divisor)) >> 36;
    Divided {
        quotient,
        remainder: number - quotient * divisor,
    }
}
