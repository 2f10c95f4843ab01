// The gain of each whole decibel.

ghost use Rattle.std.specs.Prelude.{◌≡◌, ◌≤◌};
ghost use Rattle.uac_gain.specs.Gain.{decibel_gain, raised_gain};

/// The gains of 0 to -96 decibels, in parts of 2^30.
///
/// Each is the one before, scaled by one decibel and rounded down: the contract of `gain_down` checks all of them.
const GAINS_DOWN: [u32; 97] = [
    1073741824, 956973408, 852903447, 760150997, 677485289, 603809399, 538145693, 479622853,
    427464317, 380977973, 339546975, 302621560, 269711749, 240380849, 214239657, 190941295,
    170176608, 151670061, 135176084, 120475811, 107374179, 95697337, 85290341, 76015096, 67748525,
    60380936, 53814565, 47962281, 42746427, 38097793, 33954693, 30262151, 26971170, 24038080,
    21423961, 19094125, 17017656, 15167001, 13517603, 12047576, 10737413, 9569729, 8529029,
    7601505, 6774848, 6038089, 5381452, 4796224, 4274639, 3809776, 3395466, 3026212, 2697114,
    2403805, 2142393, 1909409, 1701762, 1516696, 1351756, 1204753, 1073737, 956969, 852899, 760147,
    677481, 603805, 538141, 479618, 427459, 380973, 339542, 302617, 269707, 240376, 214235, 190937,
    170172, 151665, 135171, 120471, 107369, 95692, 85285, 76010, 67743, 60376, 53810, 47958, 42742,
    38093, 33950, 30257, 26966, 24033, 21419, 19089, 17013,
];

/// The gains of 0 to 12 decibels, in parts of 2^30, each again from the one before: `gain_up` checks them.
const GAINS_UP: [u32; 13] = [
    1073741824, 1204758141, 1351760866, 1516700636, 1701766102, 1909412970, 2142396588, 2403808506,
    2697117502, 3026215608, 3395469756, 3809779725, 4274643155,
];

/// The gain that many decibels down.
pub fn gain_down(decibels: usize) -> u32
    requires { decibels ≤ 96 }
    ensures { result ≡ decibel_gain decibels }
{
    GAINS_DOWN[decibels]
}

/// The gain that many decibels up.
pub fn gain_up(decibels: usize) -> u32
    requires { decibels ≤ 12 }
    ensures { result ≡ raised_gain decibels }
{
    GAINS_UP[decibels]
}
