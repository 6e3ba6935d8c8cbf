// The texts that answer a request for help and for the version.

/// What `--help` prints.
pub const HELP: &[u8] = b"hsplan-stream: places, plans, answers, checks and reports of logs

hsplan-stream places --settings F [--values F] --log F
    prints the server of each handle of the log, at each site.
    The log has the header handle or region,handle.

hsplan-stream plan --settings F [--values F] --costs F --capacity F --log F
    prints a certificate by prices: of a cheapest plan of the log's rows, or of
    servers that are short. The log may have up to 4,294,967,296 rows, with the
    header region,handle or region,handle,count.

hsplan-stream answer --settings F [--values F] --costs F --capacity F --prices F
                     --log F [--fronts N --front K]
    answers each row of the log by a certificate by prices, for any handle.
    No server gets more than its capacity, and no host more than its limit.
    The log has the header region,handle or region,body.
    With --fronts N --front K it answers by the share of the front K of N.

hsplan-stream check --settings F [--values F] --costs F --capacity F --log F
                    --prices F
    prints yes or no: whether a certificate by prices holds for the log's rows.
    The log has the header region,handle or region,handle,count.

hsplan-stream report --settings F [--values F] --costs F --capacity F --log F
                     --prices F --kind load|region
    prints a line for each server or region by a certificate by prices, and last
    the bound or the sums.

hsplan-stream interfaces --settings F [--values F]
    prints a row for each service interface of each server: its site, place,
    server_id, address, type, protocol and port.

hsplan-stream faults --demand F | --costs F | --capacity F | --log F
    prints every faulty row of a table or a log: its row, line, field and fault.

hsplan-stream --version
    prints the version.

A file may be a pipe or /dev/stdin. The manual page has more: man hsplan-stream.
";

/// What `--version` prints.
pub const VERSION: &[u8] = b"hsplan-stream 2.1.0\n";
