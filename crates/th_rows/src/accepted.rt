// Which of several files is refused, and for what, as it was worked out by hand.
use std::alloc::{AllocError, Global};
use std::test::Fail;
use std::thread::Threads;
use th_accept::{accept, can_accept};
use th_base::Text;

// A class A with static methods m and n, each of a `nop` and a `return`.
const CLASS: &[u8] =
    b"\xca\xfe\xba\xbe\0\0\x004\0\x09\x07\0\x02\x01\0\x01A\x07\0\x04\x01\0\x10java/lang/Object\x01\0\x01m\x01\0\x01n\x01\0\x03()V\x01\0\x04Code\0\x21\0\x01\0\x03\0\0\0\0\0\x02\0\x09\0\x05\0\x07\0\x01\0\x08\0\0\0\x0e\0\x01\0\0\0\0\0\x02\0\xb1\0\0\0\0\0\x09\0\x06\0\x07\0\x01\0\x08\0\0\0\x0e\0\x01\0\0\0\0\0\x02\0\xb1\0\0\0\0\0\0";

const NAME_AT: usize = 16;

// A word stands for the class with its first letter as name, and with a change for each further one:
//   v    the version is one that is not read      (3 at offset 6 of the file)
//   f    n has an `fadd`                          (10 at offset 122 of the file)
//   m    m pops from an empty stack               (12 at offset 0 of m)
//   n    n returns a reference that is not there  (12 at offset 1 of n)
// Files are named by their places, from 0.
const CASES: [(&str, &str); 18] = [
    ("", "accepted"),
    ("B A", "accepted B A"),
    ("A Bv", "3 1 - 6"),
    // The first file that is no class file.
    ("A Bf Cv", "10 1 - 122"),
    ("Av Bf", "3 0 - 6"),
    ("Af Af", "10 0 - 122"),
    // Files before linking, and before kinds.
    ("A A Bf", "10 2 - 122"),
    ("Am B Cf", "10 2 - 122"),
    ("Amf", "10 0 - 122"),
    // Linking before kinds.
    ("A B A B", "13 A - 0"),
    ("Am B B", "13 B - 0"),
    ("Am Am", "13 A - 0"),
    // Kinds by file, then by method.
    ("Am B", "12 A m()V 0"),
    ("A Bm", "12 B m()V 0"),
    ("Bn Am", "12 B n()V 1"),
    ("A Bmn Cm", "12 B m()V 0"),
    ("A Bnm", "12 B m()V 0"),
    ("A B Cn", "12 C n()V 1"),
];

fn put(bytes: &mut [u8], at: usize, byte: u8) {
    if at < bytes.len() {
        bytes[at] = byte;
    }
}

fn file_of(alloc: Global, place: usize, word: &str) -> Result<(Text, Text), AllocError> {
    let mut bytes = CLASS.to_vec(alloc)?;
    for (at, letter) in word.as_bytes().iter().enumerate() {
        match (at, *letter) {
            (0, name) => put(bytes.as_mut_slice(), NAME_AT, name),
            (_, b'v') => put(bytes.as_mut_slice(), 7, 0x35),
            (_, b'f') => put(bytes.as_mut_slice(), 122, 0x62),
            (_, b'm') => put(bytes.as_mut_slice(), 94, 0x57),
            _ => put(bytes.as_mut_slice(), 123, 0xb0),
        }
    }
    let name = format!(in alloc; "{place}")?;
    Ok((
        Text::from_slice(alloc, name.as_bytes())?,
        Text::from_slice(alloc, bytes.as_slice())?,
    ))
}

fn files_of(alloc: Global, words: &str) -> Result<Vec<(Text, Text)>, AllocError> {
    let mut files = Vec::new(alloc);
    for (place, word) in words.split_whitespace().enumerate() {
        files.push(file_of(alloc, place, word)?)?;
    }
    Ok(files)
}

fn push_text(text: &mut String, part: &Text) -> Result<(), AllocError> {
    text.push(' ')?;
    if part.is_empty() {
        text.push('-')?;
    }
    for byte in part.as_bytes() {
        text.push(char::from(*byte))?;
    }
    Ok(())
}

fn answer<R: Threads + Sync>(rt: &R, alloc: Global, words: &str) -> Result<String, Fail> {
    let files = files_of(alloc, words)?;
    if !can_accept(files.as_slice()) {
        return Err("accept may not be asked".into());
    }
    match accept(rt, alloc, files.as_slice()) {
        Ok(program) => {
            let mut text = format!(in alloc; "accepted")?;
            for class in program.files() {
                push_text(&mut text, &class.name)?;
            }
            Ok(text)
        }
        Err(th_base::Fail::Refused(refusal)) => {
            let mut text = format!(in alloc; "{}", refusal.number)?;
            push_text(&mut text, &refusal.class)?;
            push_text(&mut text, &refusal.member)?;
            text.push_str(format!(in alloc; " {}", refusal.offset)?.as_str())?;
            Ok(text)
        }
        Err(th_base::Fail::NoMemory) => Err("no memory".into()),
    }
}

#[test]
fn the_first_refusal_is_told(rt: HostRuntime) -> Result<(), Fail> {
    for (words, want) in CASES {
        let answer = answer(&rt, rt.alloc(), words)?;
        assert_eq!(rt; answer.as_str(), want);
    }
    Ok(())
}
