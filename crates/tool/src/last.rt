// The last of each key of a list.
ghost use Rattle.std.specs.Prelude.{◌≡◌, false, length, slice_index_or, EachIndex, IfOk, vec_len};
ghost use Rattle.tool.specs.Last.{is_last};

use std::alloc::{AllocError, Global};
use std::collections::HashSet;

// Of each key, whether it stands at no later index.
pub fn lasts(alloc: Global, keys: &[u32]) -> Result<Vec<bool>, AllocError>
    ensures len { IfOk result (λ v. vec_len v ≡ length keys.now) }
    ensures each { IfOk result (λ v. EachIndex keys.now (λ k. slice_index_or v.items k false ≡ is_last keys.now k)) }
{
    // room for all at once: a set that grows has the old room beside the new
    let mut later = HashSet::with_capacity(alloc, keys.len())?;
    let mut lasts = vec![in alloc; false; keys.len()]?;
    for i in (0..keys.len()).rev() {
        lasts[i] = later.insert(keys[i])?;
    }
    Ok(lasts)
}

#[cfg(test)]
mod tests {
    use super::*;

    #[test]
    fn finds_the_last_of_each_key(rt: HostRuntime) -> Result<(), AllocError> {
        let found = lasts(rt.alloc(), &[7, 8, 7])?;
        assert_eq!(rt; found.as_slice(), [false, true, true].as_slice());
        Ok(())
    }
}
