//! A sum: the SHA-256 of a file, and the file's name.

ghost use Rattle.std.specs.Prelude.{◌≡◌, map};
ghost use Rattle.sum_file.specs.Sum.{agree, data_of, digest_named};

/// One line of a file of sums.
#[derive(Debug, Drop)]
pub struct Sum {
    /// The SHA-256 of the file's bytes (FIPS 180-4), 32 bytes.
    pub digest: [u8; 32],
    /// The file's name, at least one byte, as it is on disk: without the escapes of its line.
    pub name: Vec<u8>,
}

impl Sum {
    /// Whether the two don't give one name two digests.
    pub(crate) fn agrees(&self, other: &Sum) -> bool
        ensures exact { result ≡ agree (data_of self.now) (data_of other.now) }
    {
        self.name != other.name || self.digest == other.digest
    }
}

/// The digest that the first of the sums with this name gives to it, None if the name isn't listed.
pub fn digest_of(sums: &[Sum], name: &[u8]) -> Option<[u8; 32]>
    ensures exact { result ≡ digest_named name.now (map data_of sums.now) }
{
    let sum = sums.iter().find(|sum| sum.name.as_slice() == name)?;
    Some(sum.digest)
}
