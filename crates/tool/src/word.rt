// The words of a typed line.
ghost use Rattle.std.specs.Prelude.{◌≡◌, map, option_map, slice_get, IfOk};
ghost use Rattle.tool.specs.Words.{words_of};

use std::alloc::{AllocError, Global};

// Word k of a line, from 0, where it has one. Nothing is collected, so it can't fail.
pub fn word(line: &[u8], k: usize) -> Option<&[u8]>
    ensures { option_map (λ w. w.now) result ≡ slice_get (words_of line.now) k }
{
    line.split(|byte| *byte <= b' ')
        .filter(|word| !word.is_empty())
        .nth(k)
}

// The words of a line, which bytes up to a space part.
pub fn words(alloc: Global, line: &[u8]) -> Result<Vec<&[u8]>, AllocError>
    ensures { IfOk result (λ v. map (λ w. w.now) v.items ≡ words_of line.now) }
{
    line.split(|b| *b <= b' ')
        .filter(|word| !word.is_empty())
        .collect(alloc)
}

#[cfg(test)]
mod tests {
    use super::*;

    #[test]
    fn parts_a_line_into_words(rt: HostRuntime) -> Result<(), AllocError> {
        let found = words(rt.alloc(), b" fetch\t 7 ")?;
        assert_eq!(rt; found.len(), 2);
        assert_eq!(rt; found[0], b"fetch".as_slice());
        assert_eq!(rt; found[1], b"7".as_slice());
        Ok(())
    }
}
