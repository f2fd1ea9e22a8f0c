// The page that `otp help` shows.
use screen::say_line;

const PAGE: &str = "\
./otp rehearse IMAGE JOB [LIMIT] [--key HEX32] [--save OUT [--replace]]
    Judges the job, burns it into a copy of the image, and shows what changes, row by row, and how
    many bits each page gains. LIMIT stops it after so many pulses. --save writes the image as the
    job leaves it, never over the image or the job, and over another file only with --replace.
    Of a version 2 job it says what the next reset latches of each lock row, where the locks begin,
    and what a cut after that means.
./otp receive IMAGE [--key HEX32] [--save OUT [--replace]] < JOB
    Takes the job from standard input as its bytes come, in whatever pieces, and at its end answers
    as rehearse does, without a LIMIT. What will have the job refused with 10 or 11 it says as soon
    as its byte is there, with the entry, so that the sender can stop: a line on standard error that
    begins with `early:`, for each of the first eight faults. Nothing is burnt before the end.
./otp read IMAGE ROW [--raw | --vote 3 | --vote 8] [--as CALLER | --non-secure] [--key HEX32]
    Reads a row with ECC, as it is, or by a vote of it and the rows that follow it. It reads as
    Secure, or as the caller that --as names; --non-secure is --as non-secure.
    With ECC it says which bit was repaired, the polarity, or a worn flag: bits 23 and 22 disagree.
    Says whose row it is, who may use it, and of a lock row whose key settings count.
./otp pages IMAGE [--key HEX32]
    The 64 pages: levels, key indexes, no-key state, bits burnt, who may read and write; and the
    bits burnt in all. In a bar # is 192 bits, + fewer, . none: only a full page is ########. S is
    Secure, N Non-secure, B the bootloader, which runs as Secure: the levels of S count for it too.
./otp dump IMAGE [FIRST [LAST]] [--key HEX32]
    The rows that hold bits, the row FIRST, or all from FIRST to LAST: bits, what ECC reads,
    who may read the row (S, N and B as in pages), and the datasheet's name of it.
./otp wear IMAGE [FIRST LAST] [--key HEX32]
    The rows whose ECC read by Secure is repaired, flag worn (bits 23 and 22 disagree) or
    refused with 8, and how many rows are clean, worn, damaged or not permitted. It takes all
    rows from FIRST to LAST, or those from 0 to 0xf3f that are not blank. A row that is both flag
    worn and repaired has two wrong bits, and its value is not certain.
./otp repair IMAGE (FIRST LAST | --rows TEXT) [--key HEX32] [--save OUT [--replace]]
    Burns the missing bit of each worn row that can be mended, into a copy of the image. Of each row
    that is not clean it says whether it is mended, worn but not mendable (a 1 too many, or the flag
    bits, 23 and 22, disagree), damaged, or not permitted to Secure. It takes all rows from FIRST to
    LAST, or those that a text lists, one to a line, rising; comments are as in write. They must be
    ECC rows, below 0xf40: a raw row can look as if it had lost a bit. --save writes the image as
    the repair leaves it, never over the image or the text, and over another file only with
    --replace.
./otp compare A.img B.img
    The rows where two images differ, and the bits that B lacks or has more. The exit status
    is 0 where they are the same, 1 where they differ.
./otp list JOB
    The entries of a job as the text that `write` takes, with both rows of an ECC value, and what a
    lock row locks where it was blank.
./otp write TEXT JOB [--replace]
    Makes a job of a text: a line for each entry, as `0x0c0 ecc 320` or `0x0c1 raw 0x000003`,
    and comments after #. With `version 2` as its first line the last entries may be raw ones for
    lock rows, from 0xf80 up. It writes over a job that is there only with --replace.
./otp make PRESENT WANTED JOB [--replace]
    Makes the job that burns the image PRESENT into the image WANTED: a raw entry for each row below
    0xf40 that differs, at most 512. Where a burnt bit would be lost or a row from 0xf40 up differs,
    it names the first such row. It writes over a job that is there only with --replace.
./otp code VALUE
    The code of a value, and the two rows that hold it.
./otp help
    This page.

IMAGE   16,384 bytes: 4,096 rows, row 0 first, each a 32-bit number, low byte first
JOB     the bytes of a job, at most 3,079
CALLER  secure, non-secure or bootloader
HEX32   a key: its 16 bytes as 32 hexadecimal digits, byte 0 first
ROW, FIRST, LAST, VALUE and LIMIT are decimal, or hexadecimal after 0x.
Everything happens after a reset of the image; the key is entered by Secure.
The exit status is 0 where the answer is 0, 1 where it is a refusal, 2 for a wrong word or file.";

pub fn show(rt: &HostRuntime) {
    for line in PAGE.lines() {
        say_line!(rt; "{line}");
    }
}
