//! What a file is by its first bytes, and what is done about it.

ghost use Rattle.std.specs.Prelude.{T};
ghost use Rattle.fault_words.specs.Quote.{IsQuiet};
ghost use Rattle.fault_words.specs.Sentence.{are_words};

use crate::remedy::ORDER_OF_FILES;

/// What a file is instead of what it has to be.
#[derive(Clone, Copy, Debug)]
pub enum FileKind {
    /// Nothing that can be told.
    Unknown,
    /// A file without a byte.
    Empty,
    /// A classic pcap file.
    Pcap,
    /// A file in pcap's next format.
    Pcapng,
    /// A pcap file with longer record headers.
    ModifiedPcap,
    /// A file that gzip packed.
    Gzip,
    /// A file that zstd packed.
    Zstd,
    /// A file that xz packed.
    Xz,
    /// An object of JSON.
    Object,
    /// A claim.
    Claim,
    /// A certificate.
    Certificate,
    /// A refutation.
    Refutation,
    /// A folder.
    Folder,
    /// A file that isn't there.
    Absent,
    /// A pipe, which was read and can't be read again.
    Pipe,
    /// A text behind a byte order mark.
    Marked,
    /// A text in UTF-16.
    Utf16,
}

impl FileKind {
    /// What is said of a file of this kind, and nothing if it can't be told.
    #[tactic(auto, using(crate::proofs::Quiet::visible_is_quiet))]
    pub fn word(self) -> &'static str
        ensures { IsQuiet result.now }
    {
        match self {
            FileKind::Unknown | FileKind::Absent => "",
            FileKind::Empty => "; it is empty",
            FileKind::Pcap => "; it is a classic pcap file",
            FileKind::Pcapng => "; it is pcapng",
            FileKind::ModifiedPcap => "; it is a modified pcap file",
            FileKind::Gzip => "; it is packed by gzip",
            FileKind::Zstd => "; it is packed by zstd",
            FileKind::Xz => "; it is packed by xz",
            FileKind::Object => "; it is JSON",
            FileKind::Claim => "; it is a claim",
            FileKind::Certificate => "; it is a certificate",
            FileKind::Refutation => "; it is a refutation",
            FileKind::Folder => "; it is a folder",
            FileKind::Pipe => "; it is a pipe, and can't be looked at again",
            FileKind::Marked => "; it begins with a byte order mark",
            FileKind::Utf16 => "; it is UTF-16",
        }
    }

    /// Whether it is a pipe.
    pub(crate) fn is_pipe(self) -> bool {
        matches!(self, FileKind::Pipe)
    }

    /// What is done about a file of this kind, where a capture is needed or a JSON file, and else
    /// `other`.
    pub(crate) fn remedy(self, is_capture: bool, other: &'static str) -> &'static str
        requires { T (are_words other.now) }
        ensures { T (are_words result.now) }
    {
        match self {
            FileKind::Unknown | FileKind::Empty | FileKind::Claim | FileKind::Pipe => other,
            FileKind::Pcap if is_capture => other,
            FileKind::Gzip => "unpack it: gunzip < @ > unpacked",
            FileKind::Zstd => "unpack it: unzstd < @ > unpacked",
            FileKind::Xz => "unpack it: unxz < @ > unpacked",
            FileKind::Certificate => "a certificate is judged by check: ntpaudit check ~ @",
            FileKind::Refutation => "a refutation is judged by refute: ntpaudit refute ~ @",
            FileKind::Folder => "name a file in it: ls @",
            FileKind::Absent => "see how its path is spelt, and in which folder you are: pwd",
            FileKind::Marked if !is_capture => "take the mark away: tail -c +4 @ > new.json",
            FileKind::Utf16 if !is_capture =>
                "rewrite it as UTF-8: iconv -f UTF-16 -t UTF-8 @ > new.json",
            FileKind::Pcapng if is_capture => {
                "rewrite it: editcap -F pcap @ new.pcap (-F nsecpcap if capinfos says nanoseconds)"
            }
            FileKind::ModifiedPcap if is_capture => "rewrite it: editcap -F pcap @ new.pcap",
            FileKind::Pcap | FileKind::Pcapng | FileKind::ModifiedPcap => ORDER_OF_FILES,
            FileKind::Object | FileKind::Marked | FileKind::Utf16 => ORDER_OF_FILES,
        }
    }
}

/// What a file is by its first bytes, if it isn't JSON.
pub(crate) fn kind_of(bytes: &[u8]) -> FileKind {
    match bytes {
        [] => FileKind::Empty,
        [0xd4, 0xc3, 0xb2, 0xa1, ..]
        | [0xa1, 0xb2, 0xc3, 0xd4, ..]
        | [0x4d, 0x3c, 0xb2, 0xa1, ..]
        | [0xa1, 0xb2, 0x3c, 0x4d, ..] => FileKind::Pcap,
        [0x0a, 0x0d, 0x0d, 0x0a, ..] => FileKind::Pcapng,
        [0x34, 0xcd, 0xb2, 0xa1, ..] => FileKind::ModifiedPcap,
        [0x1f, 0x8b, _, _, ..] => FileKind::Gzip,
        [0x28, 0xb5, 0x2f, 0xfd, ..] => FileKind::Zstd,
        [0xfd, 0x37, 0x7a, 0x58, ..] => FileKind::Xz,
        [0xef, 0xbb, 0xbf, _, ..] => FileKind::Marked,
        [0xff, 0xfe, _, _, ..] | [0xfe, 0xff, _, _, ..] => FileKind::Utf16,
        _ => FileKind::Unknown,
    }
}

/// Whether a file looks like an object of JSON.
pub(crate) fn is_object(bytes: &[u8]) -> bool {
    let first = bytes.iter().find(|byte| !byte.is_ascii_whitespace());
    first.is_some_and(|first| *first == b'{')
}
