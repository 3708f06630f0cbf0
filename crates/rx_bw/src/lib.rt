// The names of the FSK receive filter's bandwidths, by code byte. cmd_fsk has the enum `RxBw`.
#![tactic(auto)]

ghost use Rattle.std.specs.Prelude.{◌≡◌};
ghost use Rattle.rx_bw.specs.Width.{name_of, names};

// Each code byte's name in tenths of kHz; 0 where no name is listed, and for `BwAuto`. A line over each eight gives the divisor's m and d.
const RX_BW: [u16; 256] = [
    // 13 times 1
    30760, 0, 0, 0, 0, 0, 0, 0,
    // 13 times 2
    0, 0, 0, 0, 0, 0, 0, 0,
    // 13 times 3
    0, 5120, 2560, 1280, 640, 320, 0, 80,
    // 13 times 4
    7690, 3840, 1920, 960, 480, 240, 120, 60,
    // 13 times 5
    6150, 3070, 1530, 760, 380, 190, 96, 48,
    // 13 times 6
    0, 0, 0, 0, 0, 0, 0, 0,
    // 13 times 7
    0, 0, 0, 0, 0, 0, 0, 0,
    // 13 times 8
    0, 0, 0, 0, 0, 0, 0, 0,
    // 14 times 1
    28570, 0, 0, 0, 0, 0, 0, 0,
    // 14 times 2
    0, 0, 0, 0, 0, 0, 0, 0,
    // 14 times 3
    0, 4760, 2380, 1190, 590, 290, 140, 74,
    // 14 times 4
    7140, 3570, 1780, 890, 440, 220, 110, 56,
    // 14 times 5
    5710, 2850, 1420, 710, 350, 170, 89, 45,
    // 14 times 6
    0, 0, 0, 0, 0, 0, 0, 0,
    // 14 times 7
    0, 0, 0, 0, 0, 0, 0, 0,
    // 14 times 8
    0, 0, 0, 0, 0, 0, 0, 0,
    // 15 times 1
    26660, 0, 0, 0, 0, 0, 0, 0,
    // 15 times 2
    13330, 0, 0, 0, 0, 0, 0, 0,
    // 15 times 3
    8880, 0, 0, 0, 0, 0, 0, 0,
    // 15 times 4
    6660, 3330, 1660, 830, 410, 200, 100, 52,
    // 15 times 5
    5330, 2660, 1330, 660, 330, 160, 83, 42,
    // 15 times 6
    0, 0, 0, 0, 0, 0, 0, 0,
    // 15 times 7
    0, 0, 0, 0, 0, 0, 0, 0,
    // 15 times 8
    0, 0, 0, 0, 0, 0, 0, 0,
    // 18 times 1
    22220, 0, 0, 0, 0, 0, 0, 0,
    // 18 times 2
    11110, 0, 0, 0, 0, 0, 0, 0,
    // 18 times 3
    7400, 3700, 1850, 920, 460, 230, 0, 58,
    // 18 times 4
    5550, 2770, 1380, 690, 340, 0, 87, 43,
    // 18 times 5
    4440, 2220, 1110, 550, 270, 130, 69, 35,
    // 18 times 6
    0, 0, 0, 0, 0, 0, 0, 0,
    // 18 times 7
    0, 0, 0, 0, 0, 0, 0, 0,
    // 18 times 8
    0, 0, 0, 0, 0, 0, 0, 0,
];

// The name of a code in tenths of kHz, or 0.
pub fn rx_bw_tenths(code: u8) -> u16
    ensures { result ≡ name_of code }
{
    let i = code as usize;
    RX_BW[i]
}

// The names of all codes, for those who look at many: each mention of the table makes it anew.
pub fn rx_bw_names() -> [u16; 256]
    ensures { result ≡ names }
{
    RX_BW
}
