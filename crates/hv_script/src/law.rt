// The law that bytes are read in one way.
ghost use Rattle.hv_script.specs.OneReading.{SomeReading, OneScript, NoFaultToo, OneFault};

/// Bytes are one script or have one fault, and never both. It does nothing: its contract is this law.
pub fn one_reading()
    ensures some { SomeReading }
    ensures script { OneScript }
    ensures both { NoFaultToo }
    ensures fault { OneFault }
{}
