//! Unit texts that several programs of rows play.

/// A protected object, 1 in its unit, with the function 1 Get, the procedure 2 Add and the entry 3 Wait, which opens above a
/// level of 5.
pub const PLANT: &str = "package Plant is
   protected Valve with Priority => 20 is
      function Get return Integer;
      procedure Add (N : in Integer);
      entry Wait (N : out Integer);
   private
      Ready : Boolean := False;
      Level : Integer := 0;
   end Valve;
end Plant;
package body Plant is
   protected body Valve is
      function Get return Integer is begin return Level; end Get;
      procedure Add (N : in Integer) is begin
         Level := Level + N; Ready := Level > 5;
      end Add;
      entry Wait (N : out Integer) when Ready is begin
         N := Level; Ready := False;
      end Wait;
   end Valve;
end Plant;
";

/// Two tasks, 11 and 12 behind `Plant`: Pilot waits in the entry, and Aux adds 4 twice.
pub const NAV: &str = "with Plant;
package Nav is
   task Pilot;
   task Aux;
end Nav;
package body Nav is
   task body Pilot is X : Integer; begin Plant.Valve.Wait (X); end Pilot;
   task body Aux is begin Plant.Valve.Add (4); Plant.Valve.Add (4); end Aux;
end Nav;
";
