ghost use Rattle.std.specs.Prelude.{◌≡◌};
ghost use Rattle.ext_text.specs.Arch.{ReadsArch, arch_name};

/// The architecture that a host or an image is made for, of those of systemd.unit(5), `ConditionArchitecture=`.
#[derive(Clone, Copy, PartialEq, Eq)]
pub enum Arch {
    /// `x86`: 32-bit x86.
    X86,
    /// `x86-64`: 64-bit x86.
    X86_64,
    /// `arm`: 32-bit Arm.
    Arm,
    /// `arm64`: 64-bit Arm.
    Arm64,
    /// `riscv64`: 64-bit RISC-V.
    Riscv64,
    /// `s390x`: 64-bit IBM Z.
    S390x,
    /// `ppc64-le`: 64-bit Power, the low byte first.
    Ppc64Le,
    /// `loongarch64`: 64-bit LoongArch.
    Loongarch64,
}

impl Arch {
    /// The architecture of this name; `None` exactly where no architecture has it.
    pub fn read(text: &[u8]) -> Option<Arch>
        ensures { ReadsArch text.now result }
    {
        match text {
            b"x86" => Some(Arch::X86),
            b"x86-64" => Some(Arch::X86_64),
            b"arm" => Some(Arch::Arm),
            b"arm64" => Some(Arch::Arm64),
            b"riscv64" => Some(Arch::Riscv64),
            b"s390x" => Some(Arch::S390x),
            b"ppc64-le" => Some(Arch::Ppc64Le),
            b"loongarch64" => Some(Arch::Loongarch64),
            _ => None,
        }
    }

    /// The name.
    pub fn name(self) -> &'static str
        ensures { result.now ≡ arch_name self }
    {
        match self {
            Arch::X86 => "x86",
            Arch::X86_64 => "x86-64",
            Arch::Arm => "arm",
            Arch::Arm64 => "arm64",
            Arch::Riscv64 => "riscv64",
            Arch::S390x => "s390x",
            Arch::Ppc64Le => "ppc64-le",
            Arch::Loongarch64 => "loongarch64",
        }
    }
}
