// The words of a host that starts the program.
use std::env::FillError;
use std::rt::Env;
use std::test::Fail;
use th_base::Fail as Unanswered;
use th_top::host_words;
use th_words::UsageFault;

// A host that starts the program with these words, its name first.
#[derive(Drop)]
struct Started<'a> {
    words: &'a [&'a [u8]],
}

impl Env for Started<'_> {
    fn arg(&self, i: usize, buf: &mut [u8]) -> Result<usize, FillError> {
        let Some(word) = self.words.get(i) else {
            return Err(FillError::NotPresent);
        };
        if word.len() > buf.len() {
            return Err(FillError::TooLong);
        }
        buf[..word.len()].copy_from_slice(word);
        Ok(word.len())
    }

    fn var(&self, _name: &str, _buf: &mut [u8]) -> Result<usize, FillError> {
        Err(FillError::NotPresent)
    }

    fn var_at(&self, _i: usize, _buf: &mut [u8]) -> Result<usize, FillError> {
        Err(FillError::NotPresent)
    }
}

// The words behind the program's name are given as they are; where one isn't UTF-8 they are bad words.
#[test]
fn host_words_are_text(rt: HostRuntime) -> Result<(), Fail> {
    let rows = [
        ([b"thresher".as_slice(), b"check", b"Act.class"], true),
        ([b"thresher", b"", "\u{e9}".as_bytes()], true),
        ([b"thresher", b"check", b"\xff.class"], false),
        ([b"thresher", b"\xc3", b"Act.class"], false),
    ];
    for (words, is_text) in rows {
        let started = Started { words: &words };
        match host_words(&(started, rt.alloc())) {
            Ok(given) => {
                assert!(rt; is_text);
                assert_eq!(rt; given.len(), 2);
                for (word, wanted) in given.iter().zip(&words[1..]) {
                    assert_eq!(rt; word.as_bytes(), *wanted);
                }
            }
            Err(Unanswered::Refused(fault)) => {
                assert!(rt; !is_text);
                assert_eq!(rt; fault, UsageFault::BadWords);
            }
            Err(Unanswered::NoMemory) => assert!(rt; false),
        }
    }
    Ok(())
}
