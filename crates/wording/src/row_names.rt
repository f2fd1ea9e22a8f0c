// The datasheet's names of the rows (13.10, "Predefined OTP data locations"), each after some blanks. A row that has none is passed over in silence.
use std::fmt;

// A name, and what stands behind it.
#[derive(Clone, Copy)]
enum Name {
    // "ROSC_CALIB"
    Alone(&'static str),
    // "CHIPID3": one of several rows, counted from 0
    Numbered(&'static str, u32),
    // "CRIT0", and "CRIT0_R1" for its first redundant copy
    Copied(&'static str, u32, u32),
    // "KEY1_0"
    Pair(&'static str, u32, &'static str, u32),
    // "KEY1_VALID"
    Valid(u32),
}

impl fmt::Display for Name {
    fn fmt<W: fmt::Write>(&self, f: &mut fmt::Formatter<W>) -> fmt::Result {
        match *self {
            Name::Alone(name) => f.write_str(name),
            Name::Numbered(name, n) => write!(f, "{name}{n}"),
            Name::Copied(name, n, 0) => write!(f, "{name}{n}"),
            Name::Copied(name, n, copy) => write!(f, "{name}{n}_R{copy}"),
            Name::Pair(name, n, between, m) => write!(f, "{name}{n}{between}{m}"),
            Name::Valid(key) => write!(f, "KEY{key}_VALID"),
        }
    }
}

// The name of a row: of the identifiers and what was measured when the chip was made, to 0x037; of flags with their copies, to 0x053; of what
// the boot goes by, to 0x0bf; of the keys, their valid flags and the locks, from 0xf48 on.
fn name_of(row: u32) -> Option<Name> {
    let name = match row {
        0x000..=0x003 => Name::Numbered("CHIPID", row),
        0x004..=0x00b => Name::Numbered("RANDID", row - 0x004),
        0x010 => Name::Alone("ROSC_CALIB"),
        0x011 => Name::Alone("LPOSC_CALIB"),
        0x018 => Name::Alone("NUM_GPIOS"),
        0x036 | 0x037 => Name::Numbered("INFO_CRC", row - 0x036),
        0x038..=0x047 => Name::Copied("CRIT", (row - 0x038) / 8, row % 8),
        0x048..=0x04d => Name::Copied("BOOT_FLAGS", (row - 0x048) / 3, row % 3),
        0x04e..=0x053 => Name::Copied("DEFAULT_BOOT_VERSION", (row - 0x04e) / 3, row % 3),
        0x054 => Name::Alone("FLASH_DEVINFO"),
        0x055 => Name::Alone("FLASH_PARTITION_SLOT_SIZE"),
        0x056 => Name::Alone("BOOTSEL_LED_CFG"),
        0x057 => Name::Alone("BOOTSEL_PLL_CFG"),
        0x058 => Name::Alone("BOOTSEL_XOSC_CFG"),
        0x059 => Name::Alone("USB_BOOT_FLAGS"),
        0x05a => Name::Alone("USB_BOOT_FLAGS_R1"),
        0x05b => Name::Alone("USB_BOOT_FLAGS_R2"),
        0x05c => Name::Alone("USB_WHITE_LABEL_ADDR"),
        0x05e => Name::Alone("OTPBOOT_SRC"),
        0x05f => Name::Alone("OTPBOOT_LEN"),
        0x060 | 0x061 => Name::Numbered("OTPBOOT_DST", row - 0x060),
        0x080..=0x0bf => Name::Pair("BOOTKEY", (row - 0x080) / 16, "_", row % 16),
        0xf48..=0xf77 => Name::Pair("KEY", (row - 0xf48) / 8 + 1, "_", row % 8),
        0xf79..=0xf7e => Name::Valid(row - 0xf78),
        0xf80..=0xfff => Name::Pair("PAGE", (row - 0xf80) / 2, "_LOCK", row % 2),
        _ => return None,
    };
    Some(name)
}

// The name of a row after so many blanks: "  CHIPID3".
#[derive(Clone, Copy)]
pub struct After(pub usize, pub u32);

impl fmt::Display for After {
    fn fmt<W: fmt::Write>(&self, f: &mut fmt::Formatter<W>) -> fmt::Result {
        let After(blanks, row) = *self;
        match name_of(row) {
            Some(name) => write!(f, "{:blanks$}{name}", ""),
            None => Ok(()),
        }
    }
}
