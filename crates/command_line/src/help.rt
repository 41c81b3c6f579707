//! What the help texts of the programs share that read a configuration.

/// A help text: a sample configuration up to the tables of its publication, what is told after that, the lines of a session as
/// scripts and schedules write them, and what is told after those.
#[macro_export]
macro_rules! help_text {
    ($of_configuration:literal, $of_lines:literal) => {
        concat!(
            "\
A configuration names the server, the tables and their publications, as in

  [server]
  systemid = '42'
  records = 65536
  chunks = 64

  [[table]]
  oid = 16384
  schema = 'public'
  name = 'item'
  identity = 'default'
  key = ['id']
  columns = [['id', 'int4'], ['name', 'text'], ['qty', 'int8']]
  # a column's type is bool, int2, int4, int8, text, uuid, numeric, numeric(p,s), varchar,
  # varchar(n), char(n), bytea, date, time, timestamp or timestamptz

  [[publication]]
  name = 'p'
",
            $of_configuration,
            "  begin T                  a transaction begins
  insert T TABLE (ROW)     it inserts a row, as in (1,'ab',7)
  update T TABLE (KEY) (ROW)
                           the row of this key becomes this one, as in (1) (2,'ab',7)
  delete T TABLE (KEY)     it deletes the row of this key
  truncate T TABLE ..      it empties tables
  message T 'PREFIX' 'CONTENT'
                           it puts a message into the log
  savepoint T              it sets a savepoint
  rollback T N             it rolls back to its Nth savepoint, counted from the outermost
  release T N              it releases its Nth savepoint and those inside it
  commit T TIME            it commits, at TIME microseconds since 2000-01-01
  abort T                  it aborts
  note 'PREFIX' 'CONTENT'  a message of no transaction goes into the log
",
            $of_lines
        )
    };
}
