// The functions that a stored case may call.
ghost use Rattle.std.specs.Prelude.{◌≡◌, ◌<◌, ◌||◌, ◌&&◌, ◌==◌, nat_le};
ghost use Rattle.vectors.specs.Functions.{number_of, name_of, Names};

// A function, by the number in the first byte of its cases.
#[derive(Clone, Copy)]
pub enum Function {
    // The byte 0, which no stored case has. Such a case is run as one of a packed run length, and no count has it.
    Uncounted = 0,

    // The prelude, as it is or strict.
    Parse = 1,

    // One read.
    NextPacket = 2,

    // The index into a lent table: the first of the calls that write to lent bytes.
    BuildChunkIndex = 3,

    // A writer's first call.
    WriteHeader = 4,

    // A packet.
    WritePacket = 5,

    // A writer's last call.
    WriteTrailer = 6,

    // A jump by an index.
    SeekToViaIndex = 7,

    // Whether tags alternate.
    Interleave = 8,

    // A packed run length.
    FromFrameCount = 9,

    // The counts of a file. From here to the listing a case is a whole file and nothing else.
    Summary = 10,

    // The check of a file.
    Check = 11,

    // The listing of a file.
    Listing = 12,

    // The page of an index, again a call that writes to lent bytes.
    PrintIndex = 13,

    // The samples of a sound block. They are no bytes, so a case says how many entries are lent, and none of them.
    DecodeBlock = 14,

    // The header of a chunk at an offset of a file.
    ChunkHeader = 15,

    // A step of the register block, again a call that writes to lent bytes.
    RegisterStep = 16,
}

// The function of a case's first byte. Refuses none: a case of no function is run as the first, so that no case is passed over.
impl From<u8> for Function {
    ghost from_gives = { Names };

    fn from(byte: u8) -> Function {
        match byte {
            0 => Function::Uncounted,
            2 => Function::NextPacket,
            3 => Function::BuildChunkIndex,
            4 => Function::WriteHeader,
            5 => Function::WritePacket,
            6 => Function::WriteTrailer,
            7 => Function::SeekToViaIndex,
            8 => Function::Interleave,
            9 => Function::FromFrameCount,
            10 => Function::Summary,
            11 => Function::Check,
            12 => Function::Listing,
            13 => Function::PrintIndex,
            14 => Function::DecodeBlock,
            15 => Function::ChunkHeader,
            16 => Function::RegisterStep,
            1 | 17.. => Function::Parse,
        }
    }
}

impl Function {
    // One more than the last number, for a table of counts by function.
    pub const COUNT: usize = 17;

    // The functions whose cases are counted, in the order in which the counts are printed.
    pub const COUNTED: [Function; 16] = [
        Function::Parse,
        Function::NextPacket,
        Function::BuildChunkIndex,
        Function::SeekToViaIndex,
        Function::WriteHeader,
        Function::WritePacket,
        Function::WriteTrailer,
        Function::Interleave,
        Function::FromFrameCount,
        Function::Summary,
        Function::Check,
        Function::Listing,
        Function::PrintIndex,
        Function::DecodeBlock,
        Function::ChunkHeader,
        Function::RegisterStep,
    ];

    // The number, which is a place in a table of counts.
    pub fn number(self) -> usize
        ensures value { result ≡ number_of self }
        ensures upper_bound { result < 17 }
    {
        self as usize
    }

    // The name, as it is printed.
    pub fn name(self) -> &'static [u8]
        ensures { result.now ≡ name_of self }
    {
        match self {
            Function::Parse => b"parse",
            Function::NextPacket => b"next_packet",
            Function::BuildChunkIndex => b"build_chunk_index",
            Function::WriteHeader => b"write_header",
            Function::WritePacket => b"write_packet",
            Function::WriteTrailer => b"write_trailer",
            Function::SeekToViaIndex => b"seek_to_via_index",
            Function::Interleave => b"interleave",
            Function::FromFrameCount | Function::Uncounted => b"from_frame_count",
            Function::Summary => b"summary",
            Function::Check => b"check",
            Function::Listing => b"listing",
            Function::PrintIndex => b"print_index",
            Function::DecodeBlock => b"decode_block",
            Function::ChunkHeader => b"chunk_header",
            Function::RegisterStep => b"register_step",
        }
    }

    // Whether it is one of those that write to lent bytes.
    pub fn writes(self) -> bool
        ensures { let number = number_of self in
            result ≡ (number == 13 || (number == 16 || (nat_le 3 number && nat_le number 6))) }
    {
        matches!(
            self,
            Function::BuildChunkIndex
                | Function::WriteHeader
                | Function::WritePacket
                | Function::WriteTrailer
                | Function::PrintIndex
                | Function::RegisterStep
        )
    }
}
